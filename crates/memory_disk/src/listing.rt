// The least name and the least folder above one, in a folder of a memory disk.
ghost use Rattle.std.specs.Prelude.{◌≡◌, ◌≢◌, Bool, List, Option, [], ◌∷◌, ◌++◌, IsTrue, ◌↔◌, not, map, filter, if◌then◌else◌, vec_capacity};
ghost use Rattle.sd_names.specs.Place.{dir_cmp, name_cmp};
ghost use Rattle.sd_names.specs.declared.place.Dir.{Dir};
ghost use Rattle.memory_disk.specs.Listing.{IsLeastDir, IsLeastName, IsLesser, dir_moved};
ghost use Rattle.shared_disk.specs.NameCalls.{IsDirAbove, IsNameAbove};
ghost use Rattle.shared_disk.specs.Places.{dir_is};
ghost use Rattle.memory_disk.specs.declared.entry.FileEntry.{FileEntry};

use crate::entry::FileEntry;
use sd_names::{Dir, Name};
use std::cmp::Ordering;

// Whether a name is above another, where there is one.
fn is_name_above(after: Option<Name>, name: Name) -> bool
    ensures { IsTrue result ↔ IsNameAbove after name }
{
    match after {
        Some(after) => after.cmp(&name) == Ordering::Less,
        None => true,
    }
}

fn is_dir_above(after: Option<Dir>, dir: Dir) -> bool
    ensures { IsTrue result ↔ IsDirAbove after dir }
{
    match after {
        Some(after) => after.cmp(&dir) == Ordering::Less,
        None => true,
    }
}

// The lesser of two names, where there is a first.
fn lesser_name(least: Option<Name>, name: Name) -> Name
    ensures { IsLesser name_cmp least name result }
{
    match least {
        Some(least) => {
            if least.cmp(&name) == Ordering::Greater {
                name
            } else {
                least
            }
        }
        None => name,
    }
}

fn lesser_dir(least: Option<Dir>, dir: Dir) -> Dir
    ensures { IsLesser dir_cmp least dir result }
{
    match least {
        Some(least) => {
            if least.cmp(&dir) == Ordering::Greater {
                dir
            } else {
                least
            }
        }
        None => dir,
    }
}

// The least name, where one more file is looked at.
fn with_file(
    least: Option<Name>,
    slot: Option<FileEntry>,
    dir: Dir,
    after: Option<Name>,
) -> Option<Name>
    ensures { (front : List (Option FileEntry)) → IsLeastName front dir after least → IsLeastName (front ++ slot ∷ []) dir after result }
{
    match slot {
        Some(file) => {
            if file.place.dir.is(&dir) && is_name_above(after, file.place.name) {
                Some(lesser_name(least, file.place.name))
            } else {
                least
            }
        }
        None => least,
    }
}

// The least folder, where one more is looked at.
fn with_dir(least: Option<Dir>, made: Dir, dir: Dir, after: Option<Dir>) -> Option<Dir>
    ensures { (front : List Dir) → IsLeastDir front dir after least → IsLeastDir (front ++ made ∷ []) dir after result }
{
    if !made.is(&Dir::Root) && made.parent().is(&dir) && is_dir_above(after, made) {
        Some(lesser_dir(least, made))
    } else {
        least
    }
}

/// The least name above `after` among the files of a folder.
pub(crate) fn least_name(slots: &[Option<FileEntry>], dir: Dir, after: Option<Name>) -> Option<Name>
    ensures { IsLeastName slots.now dir after result }
{
    let mut least = None;
    for slot in slots {
        least = with_file(least, *slot, dir, after);
    }
    least
}

/// The least folder above `after` in a folder.
pub(crate) fn least_dir(dirs: &[Dir], dir: Dir, after: Option<Dir>) -> Option<Dir>
    ensures { IsLeastDir dirs.now dir after result }
{
    let mut least = None;
    for made in dirs {
        least = with_dir(least, *made, dir, after);
    }
    least
}

// Whether two folders are one.
fn is_one(made: &Dir, dir: Dir) -> bool
    ensures { result ≡ dir_is made.now dir }
{
    made.is(&dir)
}

/// Takes a folder out of a list.
pub(crate) fn forget_dir(dirs: &mut Vec<Dir>, dir: Dir)
    ensures items { dirs.new.items ≡ filter (λ (d : Dir). not (dir_is d dir)) dirs.old.items }
    ensures capacity { vec_capacity dirs.new ≡ vec_capacity dirs.old }
{
    dirs.retain(|made| !is_one(made, dir));
}

// The second folder in place of the first.
fn moved_dir(dir: Dir, from: Dir, to: Dir) -> Dir
    ensures { result ≡ dir_moved from to dir }
{
    if is_one(&dir, from) { to } else { dir }
}

/// Puts a folder in place of another in a list.
pub(crate) fn move_one(dirs: &mut [Dir], from: Dir, to: Dir)
    ensures { dirs.new ≡ map (dir_moved from to) dirs.old }
{
    for i in 0..dirs.len() {
        dirs[i] = moved_dir(dirs[i], from, to);
    }
}
