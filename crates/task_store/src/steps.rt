// The steps that a task has.
ghost use Rattle.std.specs.Prelude.{◌≡◌, ◌≤◌, ◌++◌, [], ◌∷◌, OnOk, OnErr};
ghost use Rattle.task_store.specs.TaskText.{step_key};

use crate::undo::Undo;
use sd_names::NoMemory;
use std::alloc::Global;
use std::marker::Model;

/// The steps of a task, in the order in which they were put in. A contract sees their list.
#[derive(Debug, Drop)]
pub struct Steps {
    steps: Vec<Undo>,
}

impl Model for Steps {
    ghost use Rattle.std.specs.Prelude.{List};
    ghost use Rattle.task_store.specs.declared.undo.Undo.{Undo};

    ghost Value = { List Undo };

    ghost view = { λ s. s.steps.items };
}

impl Steps {
    /// No steps. It takes no memory.
    pub fn new(alloc: Global) -> Steps
        ensures { result ≡ [] }
    {
        Steps {
            steps: Vec::new(alloc),
        }
    }

    /// Puts a step behind the others. Without memory it changes nothing.
    pub fn push(&mut self, step: Undo) -> Result<(), NoMemory>
        ensures ok { OnOk result (self.new ≡ self.old ++ step ∷ []) }
        ensures err { OnErr result (self.new ≡ self.old) }
    {
        match self.steps.push(step) {
            Ok(()) => Ok(()),
            Err(_) => Err(NoMemory),
        }
    }

    /// Puts a step before the others.
    pub fn push_front(&mut self, step: Undo) -> Result<(), NoMemory>
        ensures { OnOk result (self.new ≡ step ∷ self.old) }
    {
        match self.steps.insert(0, step) {
            Ok(()) => Ok(()),
            Err(_) => Err(NoMemory),
        }
    }

    /// The steps, lent.
    pub fn as_slice(&self) -> &[Undo]
        ensures { result.now ≡ self.now }
    {
        &self.steps
    }
}

/// The key of a step: STEP00 to STEP15.
pub fn step_key(number: u8) -> [u8; 6]
    requires { number ≤ 15 }
    ensures { result ≡ step_key number }
{
    [
        b'S',
        b'T',
        b'E',
        b'P',
        b'0' + number / 10,
        b'0' + number % 10,
    ]
}
