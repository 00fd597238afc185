// What is decided before a verb begins, without a call of the disk.
ghost use Rattle.std.specs.Prelude.{IfNone};
ghost use Rattle.sd_names.specs.UpSet.{Hosts};
ghost use Rattle.pool_model.specs.Bars.{alone, bars_of, leading, none_begun, not_leading};
ghost use Rattle.pool_model.specs.Pool.{Pool};
ghost use Rattle.pool_model.specs.State.{Kept};
ghost use Rattle.pool_model.specs.Verb.{clear_task, verb_said};
ghost use Rattle.host_core.specs.Bars.{AreBarred, BarsAsk, IsBarred, IsDecided, IsReady};
ghost use Rattle.host_core.specs.Knows.{HostKnows};
ghost use Rattle.host_core.specs.Memory.{IsClearing, IsLeading};
ghost use Rattle.host_core.specs.State.{state_of};

use crate::Host;
use sd_names::{Id, Refusal, UpSet, Verb};

impl Host {
    /// Why a verb of the pool, of the role or of tasks doesn't begin: the refusal of the first check that gives one, in the
    /// order of 25; 41; 40, 101, 100. It makes no call and changes nothing. That a task is there is asked of the manager's
    /// list, which has to be the pool's.
    pub fn barred(&self, up: &UpSet, verb: &Verb<'_>) -> Option<Refusal>
        requires decided { IsDecided verb.now }
        ensures barred { (k : Kept) (p : Pool) → BarsAsk verb.now k self.now p → AreBarred self.now.id up.now (state_of k self.now) (bars_of (verb_said verb.now)) p result }
        ensures ready { IfNone result (IsReady verb.now self.now.leading) }
    {
        match verb {
            Verb::MakePool { .. } => self.beside_others(up),
            Verb::SpmStart { .. } => self.leading_already(),
            Verb::SpmStop => match self.not_leading() {
                Some(refusal) => Some(refusal),
                None => self.with_open_task(),
            },
            Verb::ClearTask { task } => self.without_task(task),
            Verb::Tasks => self.not_leading(),
            _ => self.not_leading(),
        }
    }

    // 40, 101 and 100, for a verb that clears a task.
    fn without_task(&self, task: &Id) -> Option<Refusal>
        ensures barred { (k : Kept) (p : Pool) (up : Hosts) → HostKnows k self.now p → AreBarred self.now.id up (state_of k self.now) (bars_of (clear_task task.now)) p result }
        ensures ready { IfNone result (IsClearing task.now self.now.leading) }
    {
        match &self.leading {
            Some(leading) => match leading.begun {
                Some(begun) => Some(Refusal::TaskOpen(begun)),
                None => {
                    if leading.spm.tasks.has(task) {
                        None
                    } else {
                        Some(Refusal::NoTask)
                    }
                }
            },
            None => Some(Refusal::NotSpm),
        }
    }

    // 25 with the least other host that is up.
    fn beside_others(&self, up: &UpSet) -> Option<Refusal>
        ensures { (k : Kept) (p : Pool) → IsBarred self.now.id up.now (state_of k self.now) alone p result }
    {
        match up.least_but(self.id) {
            Some(other) => Some(Refusal::OthersUp(other.get())),
            None => None,
        }
    }

    // 41 with this host and its version, where it is the manager.
    fn leading_already(&self) -> Option<Refusal>
        ensures { (k : Kept) (p : Pool) (up : Hosts) → IsBarred self.now.id up (state_of k self.now) not_leading p result }
    {
        match &self.leading {
            Some(leading) => Some(Refusal::SpmHeld(self.id.get(), leading.spm.version())),
            None => None,
        }
    }

    // 40 where this host isn't the manager.
    fn not_leading(&self) -> Option<Refusal>
        ensures barred { (k : Kept) (p : Pool) (up : Hosts) → IsBarred self.now.id up (state_of k self.now) leading p result }
        ensures ready { IfNone result (IsLeading self.now.leading) }
    {
        match &self.leading {
            Some(_) => None,
            None => Some(Refusal::NotSpm),
        }
    }

    // 101 with the task that this manager has begun and not ended.
    fn with_open_task(&self) -> Option<Refusal>
        ensures { (k : Kept) (p : Pool) (up : Hosts) → IsBarred self.now.id up (state_of k self.now) none_begun p result }
    {
        match &self.leading {
            Some(leading) => match leading.begun {
                Some(task) => Some(Refusal::TaskOpen(task)),
                None => None,
            },
            None => None,
        }
    }
}
