// The volumes that a listing found.
ghost use Rattle.std.specs.Prelude.{◌≡◌, ◌<◌, ◌≤◌, ◌++◌, [], ◌∷◌, length, IfOk};

use sd_names::{Id, NoMemory};
use std::alloc::Global;
use std::marker::Model;

/// How many volumes an image has at most.
pub(crate) const MOST: usize = 32;

/// A volume whose text is in the folder.
#[derive(Clone, Copy, Debug)]
pub struct Found {
    /// The volume.
    pub id: Id,
    /// Whether its file is there too.
    pub has_file: bool,
}

/// At most 32 volumes, in the order in which they were found. A contract sees the list.
#[derive(Debug, Drop)]
pub struct FoundVolumes {
    volumes: Vec<Found>,
}

impl Model for FoundVolumes {
    ghost use Rattle.std.specs.Prelude.{List, ◌≤◌, vec_len, vec_capacity};
    ghost use Rattle.chain_gathering.specs.declared.found.Found.{Found};

    ghost Value = { List Found };

    ghost view = { λ r. r.volumes.items };

    ghost invariant = { λ r. (vec_len r.volumes ≤ 32) × (32 ≤ vec_capacity r.volumes) };
}

impl FoundVolumes {
    /// No volumes, with room for 32.
    pub fn new(alloc: Global) -> Result<FoundVolumes, NoMemory>
        ensures { IfOk result (λ r. r ≡ []) }
    {
        match Vec::with_capacity(alloc, MOST) {
            Ok(volumes) => Ok(FoundVolumes { volumes }),
            Err(_) => Err(NoMemory),
        }
    }

    /// Puts a volume behind the others. It takes no memory.
    pub fn push(&mut self, volume: Found)
        requires { length self.old < 32 }
        ensures { self.new ≡ self.old ++ volume ∷ [] }
    {
        self.volumes.push_reserved(volume)
    }

    /// The volumes, lent.
    pub fn as_slice(&self) -> &[Found]
        ensures list { result.now ≡ self.now }
        ensures few { length result.now ≤ 32 }
    {
        &self.volumes
    }
}
