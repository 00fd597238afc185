// Reading a task's file.
ghost use Rattle.std.specs.Prelude.{◌≡◌, ◌+◌, ◌-◌, ◌^◌, min, IfErr, IfOk, IfSome};
ghost use Rattle.shared_disk.specs.Calls.{Told};
ghost use Rattle.shared_disk.specs.Step.{ResultCounts};
ghost use Rattle.task_files.specs.Read.{IsReadRefusal, ReadsTask};
ghost use Rattle.task_files.specs.TaskFile.{task_place};
ghost use Rattle.task_store.specs.TaskText.{IsValid};

use sd_names::{Dir, HostId, Id, Name, Place, Refusal};
use shared_disk::SharedDisk;
use std::alloc::Global;
use task_store::Task;
use whole_file::{ROOM, Text, read_text};

/// The task `task` of the domain `sd`, as its file has it, or `None` where no file is there. One call of the disk. Refused
/// by `TaskCorrupt` where the text isn't that of a task.
pub fn read_task<D: SharedDisk>(
    alloc: Global,
    host: HostId,
    disk: &mut D,
    sd: Id,
    task: Id,
) -> Result<Option<Task>, Refusal>
    ensures counts { ResultCounts (D.faults disk.old) (D.faults disk.new) (D.calls disk.old) (D.calls disk.new) result }
    ensures counted { D.calls disk.new ≡ min (D.calls disk.old + 1) (2 ^ 64 - 1) }
    ensures refusals { IfErr result (IsReadRefusal task) }
    ensures valid { IfOk result (λ found. IfSome found IsValid) }
    ensures content { Told (D.content disk.old) (D.content disk.new) (ReadsTask host (task_place sd task) task (D.faults disk.new) result) }
{
    let place = Place {
        dir: Dir::Tasks(sd),
        name: Name::Task(task),
    };
    let mut room = [0; ROOM];
    match read_text(host, disk, place, &mut room) {
        Ok(Text::Absent) => Ok(None),
        Ok(Text::Long) => Err(Refusal::TaskCorrupt(task)),
        Ok(Text::Bytes(length)) => match Task::read(alloc, task, &room[..length]) {
            Ok(found) => Ok(Some(found)),
            Err(refusal) => Err(refusal),
        },
        Err(refusal) => Err(refusal),
    }
}
