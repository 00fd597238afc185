// Writing a task's text into its file: a new file beside it is written and synced, then takes its name.
ghost use Rattle.std.specs.Prelude.{◌≡◌, ◌≢◌, ◌+◌, ◌-◌, ◌^◌, min, length};
ghost use Rattle.shared_disk.specs.Calls.{Told};
ghost use Rattle.shared_disk.specs.Step.{EndsOnlyBy, IsDiskRefusal, NearsEnd, StepCounts};
ghost use Rattle.task_store.specs.TaskText.{IsTask};
ghost use Rattle.whole_file.specs.Replace.{stage_of as replace_stage, target_of, volatile_of as replace_volatile};
ghost use Rattle.whole_file.specs.declared.replace.Stage.TheVariants.{Begun};

use sd_names::{Dir, HostId, Id, Name, Place, Turn};
use shared_disk::SharedDisk;
use task_store::Task;
use whole_file::{LONGEST, Replace};

/// A write of a task's text into its file, in steps of one disk call: whatever stood there has the new text afterwards,
/// or, where the write is cut, is as it was.
#[derive(Clone, Copy, Debug)]
pub struct TaskWrite {
    replace: Replace,
    ghost apart: { target_of replace ≢ replace_volatile replace },
}

impl TaskWrite {
    ghost use Rattle.task_files.specs.TaskFile.{task_place, volatile_place};
    ghost use Rattle.task_files.specs.Write.{CallOf, IsFor, IsSameWrite, Knows, WriteSteps, file_of, stage_of, volatile_of, write_left};

    /// A write of the task's text into its file among those of the domain `sd`. The task has at most 16 steps, and none
    /// where it isn't open; each capacity and each description is one that a script line can have.
    pub fn begin(sd: Id, task: &Task) -> TaskWrite
        requires { IsTask task.now }
        ensures file { file_of result ≡ task_place sd task.now.id }
        ensures volatile { volatile_of result ≡ volatile_place sd task.now.id }
        ensures text { IsFor task.now result }
        ensures stage { stage_of result ≡ Begun }
    {
        let mut text = [0; LONGEST];
        let length = task.write_into(&mut text);
        let target = Place {
            dir: Dir::Tasks(sd),
            name: Name::Task(task.id),
        };
        TaskWrite {
            replace: Replace::begin(target, Name::TaskNew(task.id), length),
        }
    }

    /// Makes one call of the disk, of five at the most. The task is the one of `begin`, unchanged. At `Done` its text is
    /// on the medium.
    pub fn step<D: SharedDisk>(
        self,
        host: HostId,
        disk: &mut D,
        task: &Task,
    ) -> Turn<TaskWrite, (), ()>
        requires task { IsTask task.now }
        requires same { IsFor task.now self }
        ensures counts { StepCounts (D.faults disk.old) (D.faults disk.new) (D.calls disk.old) (D.calls disk.new) result }
        ensures counted { D.calls disk.new ≡ min (D.calls disk.old + 1) (2 ^ 64 - 1) }
        ensures refusals { EndsOnlyBy IsDiskRefusal result }
        ensures keeps { NearsEnd (IsSameWrite self) write_left (write_left self) result }
        ensures call { Told (D.content disk.old) (D.content disk.new) (CallOf self host (D.faults disk.new) task.now result) }
        ensures content { Told (D.content disk.old) (D.content disk.new) (λ d e. Knows self host task.now d → WriteSteps self host (D.faults disk.new) task.now result d e) }
    {
        let mut text = [0; LONGEST];
        let length = task.write_into(&mut text);
        match self.replace.step(host, disk, &text[..length]) {
            Turn::More(replace) => Turn::More(TaskWrite { replace }),
            Turn::Done(()) => Turn::Done(()),
            Turn::Ended((), refusal) => Turn::Ended((), refusal),
        }
    }
}
