// The tasks that a reply lists.
ghost use Rattle.std.specs.Prelude.{◌≡◌, ◌↔◌, ◌<◌, ◌++◌, [], ◌∷◌, Some, length, IsTrue, OnOk, OnErr};
ghost use Rattle.std.specs.List.{slice_get};

use crate::{Id, NoMemory, TaskState};
use std::alloc::Global;
use std::marker::Model;

/// The tasks of a pool with their states, in the order in which they were put in. A contract sees a list of pairs.
#[derive(Debug, Drop)]
pub struct Tasks {
    tasks: Vec<(Id, TaskState)>,
}

impl Model for Tasks {
    ghost use Rattle.std.specs.Prelude.{List};
    ghost use Rattle.sd_names.specs.declared.id.Id.{Id};
    ghost use Rattle.sd_names.specs.declared.task_state.TaskState.{TaskState};

    ghost Value = { List (Id × TaskState) };

    ghost view = { λ s. s.tasks.items };
}

impl Tasks {
    /// No tasks. It takes no memory.
    pub fn new(alloc: Global) -> Tasks
        ensures { result ≡ [] }
    {
        Tasks {
            tasks: Vec::new(alloc),
        }
    }

    /// Puts a task behind the others. Without memory it changes nothing.
    pub fn push(&mut self, task: Id, state: TaskState) -> Result<(), NoMemory>
        ensures ok { OnOk result (self.new ≡ self.old ++ (task, state) ∷ []) }
        ensures err { OnErr result (self.new ≡ self.old) }
    {
        match self.tasks.push((task, state)) {
            Ok(()) => Ok(()),
            Err(_) => Err(NoMemory),
        }
    }

    /// How many there are.
    pub fn len(&self) -> usize
        ensures { result ≡ length self.now }
    {
        self.tasks.len()
    }

    /// Whether there are none.
    pub fn is_empty(&self) -> bool
        ensures { IsTrue result ↔ (self.now ≡ []) }
    {
        self.tasks.is_empty()
    }

    /// The task at a place, with its state.
    pub fn get(&self, index: usize) -> (Id, TaskState)
        requires { index < length self.now }
        ensures { slice_get self.now index ≡ Some result }
    {
        self.tasks[index]
    }

    /// The tasks, lent.
    pub fn as_slice(&self) -> &[(Id, TaskState)]
        ensures { result.now ≡ self.now }
    {
        &self.tasks
    }
}
