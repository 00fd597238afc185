// Laws of the text of a task: contracts of functions that do nothing.
ghost use Rattle.std.specs.Prelude.{◌≡◌, ◌≤◌, length, Some};
ghost use Rattle.task_store.specs.ReadTask.{task_of};
ghost use Rattle.task_store.specs.TaskText.{HasNoZero, IsTask, IsValid, text_of};
ghost use Rattle.task_store.specs.declared.task.Task.{Task as AnyTask};

/// The text of a valid task reads as that task.
pub fn task_text_reads_back()
    ensures { (t : AnyTask) → IsValid t → task_of t.id (text_of t) ≡ Some t }
{}

/// The text of a task has at most 8,192 bytes.
pub fn task_text_is_short()
    ensures { (t : AnyTask) → IsTask t → length (text_of t) ≤ 8192 }
{}

/// The text of a task has no zero byte.
pub fn task_text_has_no_zero()
    ensures { (t : AnyTask) → IsTask t → HasNoZero (text_of t) }
{}
