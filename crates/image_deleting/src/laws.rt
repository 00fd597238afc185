// Laws of deleting an image: contracts of functions that do nothing.
ghost use Rattle.std.specs.Prelude.{◌≡◌, ◌+◌, ℕ, None, Some, true};
ghost use Rattle.sd_names.specs.UpSet.{Hosts};
ghost use Rattle.sd_names.specs.declared.id.Id.{Id};
ghost use Rattle.sd_names.specs.declared.place.Dir.TheVariants.{Image, Removed, Tasks};
ghost use Rattle.sd_names.specs.declared.place.Place.{Place};
ghost use Rattle.shared_disk.specs.Content.{Content, File};
ghost use Rattle.shared_disk.specs.Crash.{DownLeaves, IsOutcome, IsSettledFor};
ghost use Rattle.task_files.specs.TaskFile.{HasTask, task_place};
ghost use Rattle.unsynced_laws.specs.Unsynced.{LeavesOnlyOf};
ghost use Rattle.image_removing.specs.Falls.{Costs};
ghost use Rattle.image_removing.specs.Steps.{HaveIds};
ghost use Rattle.image_removing.specs.declared.removing.Pass.TheVariants.{Earlier, Moved};
ghost use Rattle.image_deleting.specs.Calls.{CallOf};
ghost use Rattle.image_deleting.specs.Deleting.{DeleteTurn, IsBegun, stage_of, under_of};
ghost use Rattle.image_deleting.specs.Falls.{deletion_left};
ghost use Rattle.image_deleting.specs.Knowing.{Knows};
ghost use Rattle.image_deleting.specs.Others.{IsImageKept, IsKeptByOthers, IsOwnPlace};
ghost use Rattle.image_deleting.specs.Sectors.{HasOnce};
ghost use Rattle.image_deleting.specs.Standing.{IsDeleted, StandsIn, StandsOnEach};
ghost use Rattle.image_deleting.specs.declared.deleting.DeleteImage.{DeleteImage as AnyDeletion};
ghost use Rattle.image_deleting.specs.declared.deleting.Stage.{Stage as AnyStage};
ghost use Rattle.image_deleting.specs.declared.removal_task.RemovalTask.{RemovalTask as AnyTask};

use image_removing::removal_knowledge_survives_others;
use task_files::task_knowledge_survives_others;

/// A deletion that has begun takes at most 25 steps, and what the names of the image's files cost in each of the two passes.
pub fn a_begun_deletion_is_bounded()
    ensures { (master task sd image : Id) (c : AnyDeletion) (cost : Costs) → IsBegun master task sd image c → deletion_left cost c ≡ cost Earlier None + cost Moved None + 25 }
{}

/// A deletion that has begun knows of a domain what its first stage says, where the folder of tasks is there, the task has no
/// text, the leases file is there, whole and with nothing unsynced, at most one sector names the image, and the identifiers of
/// the names in the image's folders have sixteen bytes.
pub fn a_begun_deletion_knows_its_domain()
    ensures { (master task sd image : Id) (c : AnyDeletion) (host : ℕ) (d : Content) → IsBegun master task sd image c → d.dir (Tasks master) ≡ true → HasTask (task_place master task) None d → HasOnce sd image d → HaveIds (Image sd image) (Removed sd image) d → Knows c host d }
{}

/// What stands of an image behind a step of its deletion stands on each outcome, and one that was deleted is gone on each.
pub fn a_deleted_image_survives_crashes()
    ensures each { (s : AnyStage) (t : AnyTask) (host : ℕ) (d : Content) → StandsIn s t host d → StandsOnEach s t host d }
    ensures deleted { (t : AnyTask) (d o : Content) → IsDeleted t d → IsOutcome d o → IsDeleted t o }
{}

/// What a deletion knows stays true under each change of others that leaves the task's files and the folder of tasks alone, and
/// in the leases file leaves each sector as it was, or naming the same image, and those that are held for a task as they were.
/// Before the image's sector is held they may change its files, as long as identifiers have sixteen bytes; from then on they
/// leave its folders and files alone. So too where another host goes down that has nothing unsynced in those files.
pub fn deletion_knowledge_survives_others()
    ensures change { (c : AnyDeletion) (host : ℕ) (d e : Content) → IsKeptByOthers (under_of c) d e → IsImageKept (stage_of c) (under_of c) d e → Knows c host d → Knows c host e }
    ensures down { (c : AnyDeletion) (host other : ℕ) (d e : Content) → DownLeaves d other e → ((q : Place) (f : File) → IsOwnPlace (under_of c) q → d.file q ≡ Some f → IsSettledFor other f) → Knows c host d → Knows c host e }
{
    task_knowledge_survives_others();
    removal_knowledge_survives_others();
}

/// Behind each step of a deletion, done, failed or refused, and whatever stands in the folder, whoever has something unsynced
/// had something before, or is the host that makes the step.
pub fn deletions_leave_only_theirs()
    ensures { (c : AnyDeletion) (host faults : ℕ) (up : Hosts) (turn : DeleteTurn) (d e : Content) → CallOf c host up faults turn d e → LeavesOnlyOf host d e }
{}
