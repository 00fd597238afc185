// The answers that a host collects from its mailbox.
ghost use Rattle.std.specs.Prelude.{◌≡◌, ◌↔◌, ◌<◌, ◌≤◌, ◌++◌, [], ◌∷◌, Some, length, IsTrue};
ghost use Rattle.std.specs.List.{slice_get};

use arrayvec::ArrayVec;
use std::marker::Model;

/// Answers from the mailbox: marks, with true for done; at most 63. A contract sees a list of pairs.
#[derive(Debug, Drop)]
pub struct Answers {
    answers: ArrayVec<(u32, bool), 63>,
}

impl Model for Answers {
    ghost use Rattle.std.specs.Prelude.{ℕ, Bool, List};

    ghost Value = { List (ℕ × Bool) };

    ghost view = { λ s. s.answers.items };
}

impl Answers {
    /// How many answers there may be: as many as a box has slots for messages.
    pub const MOST: usize = 63;

    /// No answers.
    pub fn new() -> Answers
        ensures { result ≡ [] }
    {
        Answers {
            answers: ArrayVec::new(),
        }
    }

    /// Puts an answer behind the others.
    pub fn push(&mut self, mark: u32, done: bool)
        requires { length self.old < 63 }
        ensures { self.new ≡ self.old ++ (mark, done) ∷ [] }
    {
        self.answers.push((mark, done))
    }

    /// How many there are.
    pub fn len(&self) -> usize
        ensures len { result ≡ length self.now }
        ensures most { result ≤ 63 }
    {
        self.answers.len()
    }

    /// Whether there are none.
    pub fn is_empty(&self) -> bool
        ensures { IsTrue result ↔ (self.now ≡ []) }
    {
        self.answers.is_empty()
    }

    /// The answer at a place.
    pub fn get(&self, index: usize) -> (u32, bool)
        requires { index < length self.now }
        ensures { slice_get self.now index ≡ Some result }
    {
        self.as_slice()[index]
    }

    /// The answers, lent.
    pub fn as_slice(&self) -> &[(u32, bool)]
        ensures { result.now ≡ self.now }
    {
        self.answers.as_slice()
    }
}
