// Which calls of a disk in memory fail.
ghost use Rattle.std.specs.Prelude.{ℕ, List, [], ◌↔◌, IsTrue, Contains};

/// The calls that a disk in memory fails in, by number.
pub trait FailingCalls {
    /// Their numbers.
    ghost numbers: { Self → List ℕ };

    /// Whether a call is among them.
    fn has(&self, call: u64) -> bool
        ensures { IsTrue result ↔ Contains (numbers self.now) call };
}

/// Calls that are listed.
#[derive(Drop)]
pub struct ListedCalls {
    pub(crate) calls: Vec<u64>,
}

impl FailingCalls for ListedCalls {
    ghost numbers = { λ listed. listed.calls.items };

    fn has(&self, call: u64) -> bool {
        self.calls.contains(&call)
    }
}

/// No calls.
#[derive(Clone, Copy, Drop)]
pub struct NoCalls;

impl FailingCalls for NoCalls {
    ghost numbers = { λ none. [] };

    fn has(&self, _call: u64) -> bool {
        false
    }
}
