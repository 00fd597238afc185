// The lists that a manager keeps, in room that was taken when it began.
ghost use Rattle.std.specs.Prelude.{◌≡◌, ◌≤◌, [], length, map, not, IfOk};
ghost use Rattle.std.specs.List.{filter, list_any};
ghost use Rattle.sd_names.specs.declared.id.Id.{Id as AnyId};
ghost use Rattle.sd_names.specs.declared.task_state.TaskState.{TaskState as AnyState};
ghost use Rattle.shared_disk.specs.Places.{id_is};
ghost use Rattle.spm_role.specs.Lists.{with_state};

use sd_names::{Id, NoMemory, TaskState};
use std::alloc::Global;
use std::marker::Model;

/// How many domains a pool has at the most.
const DOMAINS: usize = 4;

/// How many tasks a pool keeps at the most.
pub const TASKS: usize = 128;

/// The domains of a pool, at most 4, in room for 4. A contract sees the list.
#[derive(Debug, Drop)]
pub struct DomainList {
    ids: Vec<Id>,
}

impl Model for DomainList {
    ghost use Rattle.std.specs.Prelude.{◌≤◌, List, length, vec_capacity};
    ghost use Rattle.sd_names.specs.declared.id.Id.{Id};

    ghost Value = { List Id };

    ghost view = { λ s. s.ids.items };

    ghost invariant = { λ s. 4 ≤ vec_capacity s.ids };
}

impl DomainList {
    /// No domains, and room for 4.
    pub fn with_room(alloc: Global) -> Result<DomainList, NoMemory>
        ensures { IfOk result (λ list. list ≡ []) }
    {
        match Vec::with_capacity(alloc, DOMAINS) {
            Ok(ids) => Ok(DomainList { ids }),
            Err(_) => Err(NoMemory),
        }
    }

    /// Puts these domains, at most 4, in place of those that are there. It takes no memory.
    pub fn fill(&mut self, ids: &[Id])
        requires few { length ids.now ≤ 4 }
        ensures { self.new ≡ ids.now }
    {
        self.ids.clear();
        self.ids.extend_from_slice(ids).unwrap()
    }

    /// The domains, lent.
    pub fn as_slice(&self) -> &[Id]
        ensures { result.now ≡ self.now }
    {
        &self.ids
    }
}

/// The tasks of a pool with their states, at most 128, in room for 128. A contract sees a list of pairs.
#[derive(Debug, Drop)]
pub struct TaskList {
    tasks: Vec<(Id, TaskState)>,
}

impl Model for TaskList {
    ghost use Rattle.std.specs.Prelude.{◌≤◌, List, length, vec_capacity};
    ghost use Rattle.sd_names.specs.declared.id.Id.{Id};
    ghost use Rattle.sd_names.specs.declared.task_state.TaskState.{TaskState};

    ghost Value = { List (Id × TaskState) };

    ghost view = { λ s. s.tasks.items };

    ghost invariant = { λ s. 128 ≤ vec_capacity s.tasks };
}

impl TaskList {
    /// No tasks, and room for 128.
    pub fn with_room(alloc: Global) -> Result<TaskList, NoMemory>
        ensures { IfOk result (λ list. list ≡ []) }
    {
        match Vec::with_capacity(alloc, TASKS) {
            Ok(tasks) => Ok(TaskList { tasks }),
            Err(_) => Err(NoMemory),
        }
    }

    /// Puts these tasks, at most 128, in place of those that are there. It takes no memory.
    pub fn fill(&mut self, tasks: &[(Id, TaskState)])
        requires few { length tasks.now ≤ 128 }
        ensures { self.new ≡ tasks.now }
    {
        self.tasks.clear();
        self.tasks.extend_from_slice(tasks).unwrap()
    }

    /// Whether the list has a task of this identifier.
    pub fn has(&self, task: &Id) -> bool
        ensures { result ≡ list_any (λ (a : AnyId × AnyState). id_is a.0 task.now) self.now }
    {
        self.tasks.iter().any(|pair| is_of(pair, task))
    }

    /// Takes the task of this identifier out of the list, where it is there.
    pub fn remove(&mut self, task: &Id)
        ensures { self.new ≡ filter (λ (a : AnyId × AnyState). not (id_is a.0 task.now)) self.old }
    {
        self.tasks.retain(|pair| !is_of(pair, task));
    }

    /// Gives the task of this identifier this state, where it is there.
    pub fn set(&mut self, task: &Id, state: TaskState)
        ensures { self.new ≡ map (with_state task.now state) self.old }
    {
        for pair in self.tasks.iter_mut() {
            if is_of(pair, task) {
                pair.1 = state;
            }
        }
    }

    /// The tasks, lent.
    pub fn as_slice(&self) -> &[(Id, TaskState)]
        ensures { result.now ≡ self.now }
    {
        &self.tasks
    }
}

// Whether a task of a list has this identifier.
fn is_of(pair: &(Id, TaskState), task: &Id) -> bool
    ensures { result ≡ id_is pair.now.0 task.now }
{
    pair.0.is(task)
}
