// Removing a task's file.
ghost use Rattle.std.specs.Prelude.{◌≡◌, ◌+◌, ◌-◌, ◌^◌, min, IfErr};
ghost use Rattle.shared_disk.specs.Calls.{Told};
ghost use Rattle.shared_disk.specs.Step.{IsDiskRefusal, ResultCounts};
ghost use Rattle.task_files.specs.Remove.{RemoveLeaves, RemovesTask};
ghost use Rattle.task_files.specs.TaskFile.{task_place};

use sd_names::{Dir, HostId, Id, Name, Place, Refusal};
use shared_disk::{SharedDisk, refusal_for};

/// Removes the file of the task `task` from those of the domain `sd`. One call of the disk. Refused by `Vanished NoFile`
/// where no file is there.
pub fn remove_task<D: SharedDisk>(
    host: HostId,
    disk: &mut D,
    sd: Id,
    task: Id,
) -> Result<(), Refusal>
    ensures counts { ResultCounts (D.faults disk.old) (D.faults disk.new) (D.calls disk.old) (D.calls disk.new) result }
    ensures counted { D.calls disk.new ≡ min (D.calls disk.old + 1) (2 ^ 64 - 1) }
    ensures refusals { IfErr result IsDiskRefusal }
    ensures call { Told (D.content disk.old) (D.content disk.new) (RemovesTask (task_place sd task) (D.faults disk.new) result) }
    ensures content { Told (D.content disk.old) (D.content disk.new) (RemoveLeaves (task_place sd task) (D.faults disk.new) result) }
{
    let place = Place {
        dir: Dir::Tasks(sd),
        name: Name::Task(task),
    };
    match disk.remove(host, place) {
        Ok(()) => Ok(()),
        Err(answer) => Err(refusal_for(answer, disk)),
    }
}
