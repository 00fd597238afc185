// What was gathered of an image.
ghost use Rattle.std.specs.Prelude.{◌≡◌, ◌<◌, ◌≤◌, ◌++◌, [], ◌∷◌, length, IfOk, IfSome};
ghost use Rattle.chain_gathering.specs.Kept.{first_missing, found_in, is_last, kept_with, next_has_file, next_of, noted, records_kept};

use crate::found::{Found, FoundVolumes, MOST};
use chain_records::{Volume, VolumeRecords};
use sd_names::{Id, NoMemory};
use std::alloc::Global;
use volume_meta::VolumeRecord;

/// The volumes of an image in order of their identifiers, each with what its text says and whether its file is there.
#[derive(Debug, Drop)]
pub struct Gathered {
    found: FoundVolumes,
    records: VolumeRecords,
}

impl Gathered {
    /// Nothing, with room for 32 volumes.
    pub(crate) fn new(alloc: Global) -> Result<Gathered, NoMemory>
        ensures found { IfOk result (λ g. found_in g ≡ []) }
        ensures records { IfOk result (λ g. records_kept g ≡ []) }
    {
        let found = FoundVolumes::new(alloc)?;
        let records = VolumeRecords::new(alloc)?;
        Ok(Gathered { found, records })
    }

    /// The volumes, and whether the file of each is there.
    pub fn found(&self) -> &[Found]
        ensures list { result.now ≡ found_in self.now }
        ensures few { length result.now ≤ 32 }
    {
        self.found.as_slice()
    }

    /// The volumes, with what the text of each says and whether its file is there.
    pub fn records(&self) -> &[Volume]
        ensures list { result.now ≡ records_kept self.now }
        ensures few { length result.now ≤ 32 }
    {
        self.records.as_slice()
    }

    /// The records alone.
    pub fn into_records(self) -> VolumeRecords
        ensures { result ≡ records_kept self }
    {
        self.records
    }

    /// The first volume whose file isn't there.
    pub fn missing(&self) -> Option<Id>
        ensures { result ≡ first_missing (found_in self.now) }
    {
        for volume in self.found.as_slice() {
            if !volume.has_file {
                return Some(volume.id);
            }
        }
        None
    }

    // The volume whose text is read next.
    pub(crate) fn next(&self) -> Option<Id>
        ensures is { result ≡ next_of self.now }
        ensures room { IfSome result (λ _. length (records_kept self.now) < length (found_in self.now)) }
        ensures few { length (found_in self.now) ≤ 32 }
    {
        let read = self.records.as_slice().len();
        match self.found.as_slice().get(read) {
            Some(volume) => Some(volume.id),
            None => None,
        }
    }

    // Whether the file of that volume is there.
    fn next_has_file(&self) -> bool
        ensures { result ≡ next_has_file self.now }
    {
        let read = self.records.as_slice().len();
        match self.found.as_slice().get(read) {
            Some(volume) => volume.has_file,
            None => false,
        }
    }

    // A volume was found, where there is room for it. `last` is the last volume file that was listed.
    pub(crate) fn note(&mut self, id: Id, last: Option<Id>)
        ensures found { found_in self.new ≡ noted (found_in self.old) id last }
        ensures records { records_kept self.new ≡ records_kept self.old }
    {
        if self.found.as_slice().len() < MOST {
            let has_file = is_last(last, &id);
            self.found.push(Found { id, has_file });
        }
    }

    // The text of the next volume was read.
    pub(crate) fn keep(&mut self, id: Id, says: VolumeRecord)
        requires { length (records_kept self.old) < 32 }
        ensures { self.new ≡ kept_with self.old id says }
    {
        let has_file = self.next_has_file();
        self.records.push(Volume {
            id,
            meta: says,
            has_file,
        })
    }
}

// Whether the last volume file that was listed is that of this volume.
fn is_last(last: Option<Id>, id: &Id) -> bool
    ensures { result ≡ is_last last id.now }
{
    match last {
        Some(other) => other.is(id),
        None => false,
    }
}
