// Identifiers that a record or a reply holds.
ghost use Rattle.std.specs.Prelude.{◌≡◌, ◌↔◌, ◌≤◌, ◌++◌, [], ◌∷◌, length, insert, Contains, IfOk, IsTrue, OnOk, OnErr};

use crate::{Id, NoMemory};
use std::alloc::Global;
use std::marker::Model;

/// Identifiers, as the domains of a pool. A contract sees the list.
#[derive(Debug, Drop)]
pub struct Ids {
    ids: Vec<Id>,
}

impl Model for Ids {
    ghost use Rattle.std.specs.Prelude.{List};
    ghost use Rattle.sd_names.specs.declared.id.Id.{Id};

    ghost Value = { List Id };

    ghost view = { λ s. s.ids.items };
}

impl Ids {
    /// No identifiers. It takes no memory.
    pub fn new(alloc: Global) -> Ids
        ensures { result ≡ [] }
    {
        Ids {
            ids: Vec::new(alloc),
        }
    }

    /// A copy of these identifiers.
    pub fn copied(alloc: Global, ids: &[Id]) -> Result<Ids, NoMemory>
        ensures { IfOk result (λ copy. copy ≡ ids.now) }
    {
        match Vec::from_slice(alloc, ids) {
            Ok(ids) => Ok(Ids { ids }),
            Err(_) => Err(NoMemory),
        }
    }

    /// How many there are.
    pub fn len(&self) -> usize
        ensures { result ≡ length self.now }
    {
        self.ids.len()
    }

    /// Whether there are none.
    pub fn is_empty(&self) -> bool
        ensures { IsTrue result ↔ (self.now ≡ []) }
    {
        self.ids.is_empty()
    }

    /// Whether an identifier is among them.
    pub fn contains(&self, id: &Id) -> bool
        ensures { IsTrue result ↔ Contains self.now id.now }
    {
        self.ids.as_slice().contains(id)
    }

    /// Puts an identifier behind the others. Without memory it changes nothing.
    pub fn push(&mut self, id: Id) -> Result<(), NoMemory>
        ensures ok { OnOk result (self.new ≡ self.old ++ id ∷ []) }
        ensures err { OnErr result (self.new ≡ self.old) }
    {
        match self.ids.push(id) {
            Ok(()) => Ok(()),
            Err(_) => Err(NoMemory),
        }
    }

    /// Puts an identifier before the one at `index`, or at the end. Without memory it changes nothing.
    pub fn insert(&mut self, index: usize, id: Id) -> Result<(), NoMemory>
        requires within { index ≤ length self.old }
        ensures ok { OnOk result (self.new ≡ insert self.old index id) }
        ensures err { OnErr result (self.new ≡ self.old) }
    {
        match self.ids.insert(index, id) {
            Ok(()) => Ok(()),
            Err(_) => Err(NoMemory),
        }
    }

    /// The identifiers, lent.
    pub fn as_slice(&self) -> &[Id]
        ensures { result.now ≡ self.now }
    {
        &self.ids
    }
}
