// The begin of a verb.
ghost use Rattle.std.specs.Prelude.{◌≡◌, None, OnErr, OnOk};
ghost use Rattle.pool_model.specs.Bars.{Begins};
ghost use Rattle.pool_model.specs.Kept.{IsKept};
ghost use Rattle.pool_model.specs.Pool.{Pool};
ghost use Rattle.pool_model.specs.State.{Kept};
ghost use Rattle.pool_model.specs.Verb.{verb_said};
ghost use Rattle.host_core.specs.Knows.{HostKnows};
ghost use Rattle.host_core.specs.State.{IsHosted, state_of, verb_of};

use crate::{Host, Work};
use sd_names::{Refusal, UpSet, Verb};

impl Host {
    /// Begins a verb: it runs, with no step made, or is refused by the first check before its begin, and then the host is as
    /// it was. No call of the disk is made. The verb is one that hosts have, and none runs.
    pub fn begin(&mut self, up: &UpSet, verb: &Verb<'_>) -> Result<(), Refusal>
        requires hosted { IsHosted verb.now }
        requires resting { self.old.work ≡ None }
        ensures refused { OnErr result (self.new ≡ self.old) }
        ensures begins { (k : Kept) (p : Pool) → HostKnows k self.old p → IsKept self.old.id p k → Begins self.old.id up.now self.old.moment (verb_said verb.now) (state_of k self.old) p result (state_of k self.new) }
        ensures knows { (k : Kept) (p : Pool) → HostKnows k self.old p → IsKept self.old.id p k → HostKnows k self.new p }
    {
        match self.barred(up, verb) {
            Some(refusal) => Err(refusal),
            None => {
                self.bytes.clear();
                self.steps = 0;
                self.work = Some(work_of(verb));
                Ok(())
            }
        }
    }
}

// The work of a verb that hosts have.
fn work_of(verb: &Verb<'_>) -> Work
    requires hosted { IsHosted verb.now }
    ensures { verb_of result ≡ verb_said verb.now }
{
    match verb {
        Verb::ClearTask { task } => Work::Clear(*task),
        Verb::Tasks => Work::Tasks,
        _ => Work::Stop,
    }
}
