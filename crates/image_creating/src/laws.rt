// Laws of creating an image: contracts of functions that do nothing.
ghost use Rattle.std.specs.Prelude.{◌≡◌, ℕ, None, Some, true};
ghost use Rattle.sd_names.specs.UpSet.{Hosts};
ghost use Rattle.sd_names.specs.declared.id.Id.{Id};
ghost use Rattle.sd_names.specs.declared.place.Dir.TheVariants.{Images, Tasks};
ghost use Rattle.sd_names.specs.declared.place.Place.{Place};
ghost use Rattle.shared_disk.specs.Content.{Content, File};
ghost use Rattle.shared_disk.specs.Crash.{DownLeaves, IsOutcome, IsSettledFor};
ghost use Rattle.task_files.specs.TaskFile.{HasTask, task_place};
ghost use Rattle.unsynced_laws.specs.Unsynced.{LeavesOnlyOf};
ghost use Rattle.image_making.specs.NewImage.{folder_of};
ghost use Rattle.image_making.specs.declared.making.NewImage.{NewImage as AnyImage};
ghost use Rattle.image_creating.specs.Calls.{CallOf};
ghost use Rattle.image_creating.specs.Creating.{CreateTurn, IsBegun, under_of};
ghost use Rattle.image_creating.specs.Knowing.{Knows};
ghost use Rattle.image_creating.specs.Others.{IsKeptByOthers, IsOwnPlace};
ghost use Rattle.image_creating.specs.Sectors.{HasArea};
ghost use Rattle.image_creating.specs.Standing.{IsCreated, IsStanding, IsStandingOnEach};
ghost use Rattle.image_creating.specs.declared.creating.CreateImage.{CreateImage as AnyCreation};
ghost use Rattle.image_creating.specs.declared.image_task.ImageTask.{ImageTask as AnyTask};

use image_making::image_knowledge_survives_others;
use task_files::task_knowledge_survives_others;

/// A creation that has begun knows of a domain what its first stage says, where the folder of images and that of tasks are there,
/// the task has no text, and the leases file is there, whole and with nothing unsynced.
pub fn a_begun_creation_knows_its_domain()
    ensures { (master task : Id) (c : AnyCreation) (x : AnyImage) (host : ℕ) (d : Content) → IsBegun master task x c → d.dir (Images x.says.domain) ≡ true → d.dir (Tasks master) ≡ true → HasTask (task_place master task) None d → HasArea x.says.domain d → Knows c x host d }
{}

/// What stands of a created image stands on each outcome, and an image that was created is there on each.
pub fn a_created_image_survives_crashes()
    ensures each { (t : AnyTask) (x : AnyImage) (host : ℕ) (d : Content) → IsStanding t x host d → IsStandingOnEach t x host d }
    ensures created { (t : AnyTask) (x : AnyImage) (host : ℕ) (d o : Content) → IsCreated t x host d → IsOutcome d o → IsCreated t x host o }
{}

/// What a creation knows stays true under each change of others that leaves the image's folder and its files, the task's, and
/// the domain's folders alone, and in the leases file leaves each sector as it was, or naming the same image, and those that
/// are held for a task as they were. So too where another host goes down that has nothing unsynced in those files.
pub fn creation_knowledge_survives_others()
    ensures change { (c : AnyCreation) (x : AnyImage) (host : ℕ) (d e : Content) → IsKeptByOthers (under_of c) x d e → Knows c x host d → Knows c x host e }
    ensures down { (c : AnyCreation) (x : AnyImage) (host other : ℕ) (d e : Content) → DownLeaves d other e → ((q : Place) (f : File) → IsOwnPlace (under_of c) x q → d.file q ≡ Some f → IsSettledFor other f) → Knows c x host d → Knows c x host e }
{
    task_knowledge_survives_others();
    image_knowledge_survives_others();
}

/// Behind each step of a creation, done, failed or refused, and whatever stands in the folder, whoever has something unsynced
/// had something before, or is the host that makes the step.
pub fn creations_leave_only_theirs()
    ensures { (c : AnyCreation) (host faults : ℕ) (up : Hosts) (turn : CreateTurn) (d e : Content) → CallOf c host up faults turn d e → LeavesOnlyOf host d e }
{}
