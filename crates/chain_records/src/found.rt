// The volumes that a listing of an image's folder comes to.
ghost use Rattle.std.specs.Prelude.{◌≡◌, ◌<◌, ◌≤◌, ◌^◌, ◌++◌, [], ◌∷◌, List, MatchOption, length};
ghost use Rattle.sd_names.specs.declared.id.Id.{Id as AnyId};
ghost use Rattle.chain_model.specs.Opening.{IsTooMany};
ghost use Rattle.chain_records.specs.Found.{AreFound};

use arrayvec::ArrayVec;
use sd_names::{Id, Refusal};
use std::marker::Model;

/// The volumes to which a listing comes, in its order: the first 32, and how many there are. It takes no memory.
#[derive(Debug, Drop)]
pub struct FoundVolumes {
    ids: ArrayVec<Id, 32>,
    count: u64,
}

impl Model for FoundVolumes {
    ghost use Rattle.std.specs.Prelude.{ℕ, List};
    ghost use Rattle.sd_names.specs.declared.id.Id.{Id};

    ghost Value = { List Id × ℕ };

    ghost view = { λ f. (f.ids.items, f.count) };
}

impl FoundVolumes {
    /// No volumes yet.
    pub fn new() -> FoundVolumes
        ensures { AreFound [] result }
    {
        FoundVolumes {
            ids: ArrayVec::new(),
            count: 0,
        }
    }

    /// Counts a volume behind the others, and keeps it, if there is room.
    pub fn push(&mut self, id: Id)
        ensures { (vs : List AnyId) → AreFound vs self.old → AreFound (vs ++ id ∷ []) self.new }
    {
        self.count = self.count.saturating_add(1);
        if !self.ids.is_full() {
            self.ids.push(id);
        }
    }

    /// More than 32 volumes are refused, with their number (68).
    pub fn refusal(&self) -> Option<Refusal>
        ensures { (vs : List AnyId) → AreFound vs self.now → length vs < 2 ^ 64
            → MatchOption result (length vs ≤ 32) (IsTooMany vs) }
    {
        if self.count > 32 {
            Some(Refusal::ChainTooLong(self.count))
        } else {
            None
        }
    }

    /// The volumes that were kept, lent: all of them, where there are 32 at most.
    pub fn as_slice(&self) -> &[Id]
        ensures all { (vs : List AnyId) → AreFound vs self.now → length vs ≤ 32 → result.now ≡ vs }
        ensures few { length result.now ≤ 32 }
    {
        self.ids.as_slice()
    }
}
