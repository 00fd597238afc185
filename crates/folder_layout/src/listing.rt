// What stands next in a folder, from its names as the system gives them.
ghost use Rattle.std.specs.Prelude.{◌≡◌, ◌≢◌, ◌⊎◌, ◌↔◌, ℕ, List, Option, Some, IfOk, IfErr, IfSome, IsTrue};
ghost use Rattle.std.specs.Cmp.{IsTotalOrder};
ghost use Rattle.std.specs.Fs.{file_type, IsDir, IsFile};
ghost use Rattle.std.specs.declared.cmp.Ordering.{Ordering};
ghost use Rattle.std.specs.declared.cmp.Ordering.TheVariants.{Less, Greater};
ghost use Rattle.std.specs.declared.fs.attrs.Metadata.{Metadata};
ghost use Rattle.sd_names.specs.Place.{dir_path, place_path};
ghost use Rattle.sd_names.specs.declared.place.Dir.{Dir};
ghost use Rattle.folder_layout.specs.Listing.{AnswersAbove, IsAbove, IsAtMost, IsListed};

use crate::layout::{read_dir, read_name};
use sd_names::{Dir, Name, PathText, Place};
use shared_disk::DiskAnswer;
use std::cmp::Ordering;
use std::fs::Metadata;
use std::io::Read;

/// Bytes of names that are read at once. A name of the system has at most 255.
pub const PIECE: usize = 4096;

/// What a folder of the store lists: files, or folders.
pub trait Entry: Copy {
    // The order in which a folder lists.
    ghost order: { Self → Self → Ordering };

    // An entry stands in a folder under a text.
    ghost stands: { Dir → List ℕ → Self → Type 0 };

    // The path of what stands in a folder.
    ghost path: { Dir → Self → List ℕ };

    // What the system says of such an entry.
    ghost suits: { Metadata → Type 0 };

    /// What a folder may hold under a text.
    fn read_in(dir: &Dir, text: &[u8]) -> Option<Self>
        ensures stands { IfSome result (stands dir.now text.now) }
        ensures found { (entry : Self) → stands dir.now text.now entry → result ≡ Some entry };

    /// Compares two entries in the order in which a folder lists.
    fn compare(&self, other: &Self) -> Ordering
        ensures order { result ≡ order self.now other.now };

    /// The path below the shared folder.
    fn path_in(&self, dir: &Dir) -> PathText
        ensures path { result.bytes ≡ path dir.now self.now };

    /// Whether what stands at that path is what is listed.
    fn is_kind(metadata: &Metadata) -> bool
        ensures kind { IsTrue result ↔ suits metadata.now };

    ghost total: { IsTotalOrder order };
}

impl Entry for Name {
    ghost use Rattle.sd_names.specs.Place.{name_cmp, place_path};
    ghost use Rattle.sd_names.specs.declared.place.Place.{Place};
    ghost use Rattle.sd_names.proofs.PlaceLemmas.{name_cmp-total};
    ghost use Rattle.folder_layout.specs.Layout.{HoldsName, IsNamed};

    ghost order = { name_cmp };

    ghost stands = { λ dir text name. IsNamed (HoldsName dir) text name };

    ghost path = { λ dir name. place_path (record { dir = dir; name = name }) };

    ghost suits = { λ metadata. IsFile (file_type metadata) };

    ghost total = { name_cmp-total };

    fn read_in(dir: &Dir, text: &[u8]) -> Option<Name> {
        read_name(dir, text)
    }

    fn compare(&self, other: &Name) -> Ordering {
        self.cmp(other)
    }

    fn path_in(&self, dir: &Dir) -> PathText {
        Place {
            dir: *dir,
            name: *self,
        }
        .path()
    }

    fn is_kind(metadata: &Metadata) -> bool {
        metadata.is_file()
    }
}

impl Entry for Dir {
    ghost use Rattle.sd_names.specs.Place.{dir_cmp, dir_path};
    ghost use Rattle.sd_names.proofs.PlaceLemmas.{dir_cmp-total};
    ghost use Rattle.folder_layout.specs.Layout.{IsFolderIn};

    ghost order = { dir_cmp };

    ghost stands = { λ dir text below. IsFolderIn dir text below };

    ghost path = { λ dir below. dir_path below };

    ghost suits = { λ metadata. IsDir (file_type metadata) };

    ghost total = { dir_cmp-total };

    fn read_in(dir: &Dir, text: &[u8]) -> Option<Dir> {
        read_dir(dir, text)
    }

    fn compare(&self, other: &Dir) -> Ordering {
        self.cmp(other)
    }

    fn path_in(&self, _dir: &Dir) -> PathText {
        self.path()
    }

    fn is_kind(metadata: &Metadata) -> bool {
        metadata.is_dir()
    }
}

// Whether an entry is above another, where there is one.
fn is_above<E: Entry>(after: &Option<E>, entry: &E) -> bool
    ensures { IsTrue result ↔ IsAbove E.order after.now entry.now }
{
    match after {
        Some(after) => after.compare(entry) == Ordering::Less,
        None => true,
    }
}

// The lesser of an entry and the least so far, where there is one.
fn lesser<E: Entry>(entry: E, least: Option<E>) -> E
    ensures entry { E.order result entry ≢ Greater }
    ensures kept { (x : E) → IsAtMost E.order least x → E.order result x ≢ Greater }
    ensures from { (least ≡ Some result) ⊎ (result ≡ entry) }
{
    match least {
        Some(least) => {
            if entry.compare(&least) == Ordering::Less {
                entry
            } else {
                least
            }
        }
        None => entry,
    }
}

// The least of the entry so far and the one that stands under a text, where that is above `after`.
fn least_with<E: Entry>(least: Option<E>, dir: &Dir, after: &Option<E>, text: &[u8]) -> Option<E>
    ensures kept { (x : E) → IsAtMost E.order least x → IsAtMost E.order result x }
    ensures below { (x : E) → E.stands dir.now text.now x → IsAbove E.order after.now x → IsAtMost E.order result x }
    ensures from { (x : E) → result ≡ Some x → (least ≡ Some x) ⊎ (E.stands dir.now text.now x × IsAbove E.order after.now x) }
{
    match E::read_in(dir, text) {
        Some(entry) => {
            if is_above(after, &entry) {
                Some(lesser(entry, least))
            } else {
                least
            }
        }
        None => least,
    }
}

// The least of the entry so far and those above `after` whose names a piece has. A zero byte ends each name.
fn least_in_piece<E: Entry>(
    least: Option<E>,
    dir: &Dir,
    after: &Option<E>,
    piece: &[u8],
) -> Option<E>
    ensures kept { (x : E) → IsAtMost E.order least x → IsAtMost E.order result x }
    ensures below { (x : E) → IsListed E.order (E.stands dir.now) after.now piece.now x → IsAtMost E.order result x }
    ensures from { (x : E) → result ≡ Some x → (least ≡ Some x) ⊎ IsListed E.order (E.stands dir.now) after.now piece.now x }
{
    let mut least = least;
    let mut start = 0;
    for end in 0..piece.len() {
        if piece[end] == 0 {
            least = least_with(least, dir, after, &piece[start..end]);
            start = end + 1;
        }
    }
    least
}

/// The least entry above `after` of those whose names a folder gives, whatever stands there. A piece that is read
/// ends behind a name.
pub fn least_above<E: Entry, D: Read>(
    names: &mut D,
    dir: &Dir,
    after: &Option<E>,
) -> Result<Option<E>, DiskAnswer>
    ensures above { IfOk result (AnswersAbove E.order after.now) }
    ensures fault { IfErr result (λ answer. answer ≡ DiskAnswer.Failed) }
{
    let mut piece = [0; PIECE];
    let mut least = None;
    for _ in 0..u64::MAX {
        match names.read(&mut piece) {
            Ok(0) => return Ok(least),
            Ok(count) => least = least_in_piece(least, dir, after, &piece[..count]),
            Err(_) => return Err(DiskAnswer::Failed),
        }
    }
    Err(DiskAnswer::Failed)
}
