// Volumes one after another, as on a path.
ghost use Rattle.std.specs.Prelude.{◌≡◌, ◌↔◌, ◌<◌, ◌≤◌, ◌++◌, [], ◌∷◌, length, Contains, IsTrue};

use arrayvec::ArrayVec;
use sd_names::Id;
use std::marker::Model;

/// At most 33 volumes in order, as a volume and those below it. It takes no memory, and a contract sees the list.
#[derive(Debug, Drop)]
pub struct VolumeList {
    ids: ArrayVec<Id, 33>,
}

impl Model for VolumeList {
    ghost use Rattle.std.specs.Prelude.{List};
    ghost use Rattle.sd_names.specs.declared.id.Id.{Id};

    ghost Value = { List Id };

    ghost view = { λ l. l.ids.items };
}

impl VolumeList {
    /// No volumes.
    pub fn new() -> VolumeList
        ensures { result ≡ [] }
    {
        VolumeList {
            ids: ArrayVec::new(),
        }
    }

    /// Puts a volume behind the others.
    pub fn push(&mut self, id: Id)
        requires { length self.old < 33 }
        ensures { self.new ≡ self.old ++ id ∷ [] }
    {
        self.ids.push(id)
    }

    /// How many there are.
    pub fn len(&self) -> usize
        ensures { result ≡ length self.now }
    {
        self.ids.len()
    }

    /// Whether there are none.
    pub fn is_empty(&self) -> bool
        ensures { IsTrue result ↔ (self.now ≡ []) }
    {
        self.ids.is_empty()
    }

    /// Whether a volume is among them.
    pub fn contains(&self, id: &Id) -> bool
        ensures { IsTrue result ↔ Contains self.now id.now }
    {
        self.ids.as_slice().contains(id)
    }

    /// The volumes, lent.
    pub fn as_slice(&self) -> &[Id]
        ensures list { result.now ≡ self.now }
        ensures few { length result.now ≤ 33 }
    {
        self.ids.as_slice()
    }
}
