// The one image of the session: how its volume's file is made, read and written.
ghost use lib.Pointwise.{pointwise};
ghost use Rattle.std.specs.Prelude.{◌&&◌, nat_eq, Ok, IfOk, ◌≡◌, ℕ, ◌+◌, ◌/◌, ◌≤◌, ◌^◌, ◌<◌, ◌⊎◌, List, true, None, Some, length, MatchResult};
ghost use Rattle.shared_disk.specs.Content.{Content, File, zero_sector};
ghost use Rattle.shared_disk.specs.Calls.{IsAligned, IsPiece, IsPut, IsSame, Syncs, Told, created, synced};
ghost use Rattle.pool_session.specs.FileCalls.{FileMade, ImageMade, ImagePartlyMade, PartlyWritten, Written};
ghost use Rattle.raw_layer.specs.Raw.{ReadsFile};
ghost use Rattle.pool_session.specs.Capacity.{IsCapacity};
ghost use Rattle.shared_disk.specs.Step.{ResultFaults};
ghost use Rattle.pool_session.specs.Fault.{IsFault, SameOrFault};
ghost use Rattle.pool_session.specs.Folders.{HasDomain};

use crate::folders::make_dir;
use raw_layer::{Raw, RawRead, RawWrite};
use sd_names::{Dir, HostId, Id, Name, Place, Refusal, Turn};
use shared_disk::{SharedDisk, refusal_for};

/// An image of one raw volume: its domain, its own identifier, its volume's, and its capacity in bytes.
#[derive(Clone, Copy, Debug)]
pub struct Image {
    pub sd: Id,
    pub image: Id,
    pub volume: Id,
    pub capacity: u64,
}

impl Image {
    ghost use Rattle.pool_session.specs.Image.{file_of, HasPartOfImage, HoldsFlat, SeenFlat, Mixed, ReadsFlat, laid};

    /// Whether this is the image of that domain and identifier.
    pub fn is_named(&self, sd: &Id, image: &Id) -> bool
        ensures { result ≡ (pointwise nat_eq sd.now.0 self.now.sd.0 && pointwise nat_eq image.now.0 self.now.image.0) }
    {
        *sd == self.sd && *image == self.image
    }

    /// The file of the image's volume.
    pub fn place(&self) -> Place
        ensures { result ≡ file_of self.now }
    {
        Place {
            dir: Dir::Image(self.sd, self.image),
            name: Name::Volume(self.volume),
        }
    }

    /// Makes the image's folder and its volume's file of zeros, synced. Where the disk tells that it holds the folders of
    /// the domain alone, it is refused only for a fault of the disk, and a part of it is made then. On every disk it is done
    /// only where neither was there, and nothing else is changed.
    pub fn create<D: SharedDisk>(&self, host: HostId, disk: &mut D) -> Result<(), Refusal>
        requires { IsCapacity self.now.capacity }
        ensures count { D.faults disk.old ≤ D.faults disk.new }
        ensures faults { ResultFaults (D.faults disk.old) (D.faults disk.new) result }
        ensures made { MatchResult result
            (λ _. Told (D.content disk.old) (D.content disk.new) (ImageMade host self.now))
            (λ refusal. Told (D.content disk.old) (D.content disk.new) (SameOrFault refusal (ImagePartlyMade host self.now))) }
        ensures content { (d : Content) → D.content disk.old ≡ Some d → HasDomain self.now.sd d
            → (e : Content) × (D.content disk.new ≡ Some e)
            × MatchResult result (λ _. HoldsFlat self.now (λ _. zero_sector) e) (λ refusal. IsFault (D.faults disk.old) (D.faults disk.new) refusal × HasPartOfImage host self.now e) }
    {
        make_dir(host, Dir::Image(self.sd, self.image), disk)?;
        create_file(host, self.place(), self.capacity, disk)
    }

    /// Reads a part from the offset `at` on, both in bytes and multiples of 512, inside the capacity. On every disk it is done
    /// only where the part holds what the file reads as, and the disk holds what it held.
    pub fn read<D: SharedDisk>(
        &self,
        host: HostId,
        at: u64,
        part: &mut [u8],
        disk: &mut D,
    ) -> Result<(), Refusal>
        requires aligned { IsAligned at }
        requires piece { IsPiece (length part.old) }
        requires within { at + length part.old ≤ self.now.capacity }
        ensures count { D.faults disk.old ≤ D.faults disk.new }
        ensures faults { ResultFaults (D.faults disk.old) (D.faults disk.new) result }
        ensures read { MatchResult result
            (λ _. Told (D.content disk.old) (D.content disk.new) (λ d e. IsSame d e × ReadsFile d host (file_of self.now) (at / 512) part.new))
            (λ _. Told (D.content disk.old) (D.content disk.new) IsSame) }
        ensures content { (d : Content) (flat : ℕ → List ℕ) → D.content disk.old ≡ Some d → HoldsFlat self.now flat d
            → (D.content disk.new ≡ Some d)
            × MatchResult result (λ _. ReadsFlat (at / 512) flat part.new) (λ refusal. IsFault (D.faults disk.old) (D.faults disk.new) refusal) }
    {
        let raw = Raw::new(self.place(), self.capacity, self.capacity);
        match RawRead::begin(&raw, at).step(host, disk, part) {
            Turn::More(_) => unreachable!(),
            Turn::Done(()) => Ok(()),
            Turn::Ended((), refusal) => Err(refusal),
        }
    }

    /// Writes a part from the offset `at` on, both in bytes and multiples of 512, inside the capacity, and syncs it. Where
    /// a fault of the disk cuts it, each sector of the part is old or new. On every disk it is done only where the disk has done
    /// the write and the sync, and nothing else is changed.
    pub fn write<D: SharedDisk>(
        &self,
        host: HostId,
        at: u64,
        part: &[u8],
        disk: &mut D,
    ) -> Result<(), Refusal>
        requires aligned { IsAligned at }
        requires piece { IsPiece (length part.now) }
        requires within { at + length part.now ≤ self.now.capacity }
        ensures count { D.faults disk.old ≤ D.faults disk.new }
        ensures faults { ResultFaults (D.faults disk.old) (D.faults disk.new) result }
        ensures written { MatchResult result
            (λ _. Told (D.content disk.old) (D.content disk.new) (Written host (file_of self.now) (at / 512) part.now))
            (λ refusal. Told (D.content disk.old) (D.content disk.new) (SameOrFault refusal (PartlyWritten host (file_of self.now) (at / 512) part.now))) }
        ensures content { (d : Content) (flat : ℕ → List ℕ) → host ≡ 1 → D.content disk.old ≡ Some d → HoldsFlat self.now flat d
            → (e : Content) × (D.content disk.new ≡ Some e)
            × MatchResult result
            (λ _. HoldsFlat self.now (laid (at / 512) part.now flat) e)
            (λ refusal. IsFault (D.faults disk.old) (D.faults disk.new) refusal
            × (mixed : ℕ → List ℕ) × Mixed (at / 512) part.now flat mixed × SeenFlat self.now mixed e) }
    {
        let raw = Raw::new(self.place(), self.capacity, self.capacity);
        let mut write = RawWrite::begin(&raw, at);
        loop {
            match write.step(host, disk, part) {
                Turn::More(next) => write = next,
                Turn::Done(()) => return Ok(()),
                Turn::Ended((), refusal) => return Err(refusal),
            }
        }
    }
}

/// Makes a file of zeros and syncs it. Where the disk tells that the folder is there and the file isn't, it is refused
/// only for a fault of the disk, which leaves no file or one that isn't synced. Nothing else changes.
fn create_file<D: SharedDisk>(
    host: HostId,
    place: Place,
    size: u64,
    disk: &mut D,
) -> Result<(), Refusal>
    requires { IsAligned size }
    ensures count { D.faults disk.old ≤ D.faults disk.new }
    ensures faults { ResultFaults (D.faults disk.old) (D.faults disk.new) result }
    ensures made { IfOk result (λ _. Told (D.content disk.old) (D.content disk.new) (FileMade host place (size / 512))) }
    ensures content { (d : Content) → D.content disk.old ≡ Some d → d.dir place.dir ≡ true → d.file place ≡ None
        → (e : Content) × (D.content disk.new ≡ Some e)
        × MatchResult result
        (λ _. IsPut d place (Some (synced host (created host (size / 512)))) e)
        (λ refusal. IsFault (D.faults disk.old) (D.faults disk.new) refusal × ((e ≡ d) ⊎ IsPut d place (Some (created host (size / 512))) e)) }
{
    match disk.create(host, place, size) {
        Ok(()) => sync_file(host, place, disk),
        Err(answer) => Err(refusal_for(answer, disk)),
    }
}

/// Syncs a file. Where the disk tells that it is there, it is refused only for a fault of the disk, which changes nothing.
fn sync_file<D: SharedDisk>(host: HostId, place: Place, disk: &mut D) -> Result<(), Refusal>
    ensures count { D.faults disk.old ≤ D.faults disk.new }
    ensures faults { ResultFaults (D.faults disk.old) (D.faults disk.new) result }
    ensures synced { IfOk result (λ _. Told (D.content disk.old) (D.content disk.new) (λ d e. Syncs d host place (Ok tt) e)) }
    ensures content { (d : Content) (f : File) → D.content disk.old ≡ Some d → d.file place ≡ Some f
        → (e : Content) × (D.content disk.new ≡ Some e)
        × MatchResult result (λ _. IsPut d place (Some (synced host f)) e) (λ refusal. IsFault (D.faults disk.old) (D.faults disk.new) refusal × (e ≡ d)) }
{
    match disk.sync(host, place) {
        Ok(()) => Ok(()),
        Err(answer) => Err(refusal_for(answer, disk)),
    }
}
