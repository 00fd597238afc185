// Laws of the files of tasks: contracts of functions that do nothing.
ghost use Rattle.std.specs.Prelude.{◌≡◌, ◌⊎◌, ℕ, ◌∷◌, List, Option, Some, None, Result, Ok, Err};
ghost use Rattle.sd_names.specs.declared.id.Id.{Id};
ghost use Rattle.sd_names.specs.declared.place.Place.{Place};
ghost use Rattle.sd_names.specs.declared.refusal.Refusal.{Refusal};
ghost use Rattle.sd_names.specs.declared.refusal.Refusal.TheVariants.{DiskFault, OutOfMemory};
ghost use Rattle.shared_disk.specs.Content.{Content};
ghost use Rattle.shared_disk.specs.Crash.{IsOutcome};
ghost use Rattle.task_store.specs.declared.task.Task.{Task};
ghost use Rattle.task_store.specs.TaskText.{IsValid};
ghost use Rattle.task_files.specs.Read.{ReadsTask};
ghost use Rattle.task_files.specs.TaskFile.{HasOneOf, HasOneOnEach, HasTask, IsOldOr};
ghost use Rattle.task_files.specs.Write.{Knows, file_of, volatile_of};
ghost use Rattle.task_files.specs.declared.write.TaskWrite.{TaskWrite};

/// What stands in a task's file is there on each outcome: a text that is on the medium, or that there is no file.
pub fn task_files_survive_crashes()
    ensures one { (d o : Content) (place : Place) (was : Option Task) → HasTask place was d → IsOutcome d o → HasTask place was o }
    ensures each { (d : Content) (place : Place) (ts : List Task) → HasOneOf place ts d → HasOneOnEach place ts d }
{}

/// Where a task's file is absent or has one of some texts, and then a step leaves it as it was, gives it another task's text
/// or removes it, it is absent or has one of those texts or the new one, and so on each outcome.
pub fn a_life_goes_on()
    ensures written { (d e : Content) (place : Place) (t : Task) (ts : List Task) → HasOneOf place ts d → IsOldOr place (Some t) d e → HasOneOnEach place (t ∷ ts) e }
    ensures removed { (d e : Content) (place : Place) (ts : List Task) → HasOneOf place ts d → IsOldOr place None d e → HasOneOnEach place ts e }
{}

/// What a write knows stays true under each change that leaves the folder and the file beside the task's alone.
pub fn task_knowledge_survives_others()
    ensures { (w : TaskWrite) (host : ℕ) (t : Task) (d e : Content) → e.dir (file_of w).dir ≡ d.dir (file_of w).dir → e.file (volatile_of w) ≡ d.file (volatile_of w) → Knows w host t d → Knows w host t e }
{}

/// A task whose text a file has is read, by each host, or the read is refused for want of memory or a fault of the disk alone;
/// where no file is there, that is what is answered.
pub fn a_stored_task_is_read()
    ensures there { (host faults : ℕ) (place : Place) (t : Task) (result : Result (Option Task) Refusal) (d e : Content) → IsValid t → HasTask place (Some t) d → ReadsTask host place t.id faults result d e → (result ≡ Ok (Some t)) ⊎ ((result ≡ Err OutOfMemory) ⊎ (result ≡ Err (DiskFault faults))) }
    ensures absent { (host faults : ℕ) (place : Place) (id : Id) (result : Result (Option Task) Refusal) (d e : Content) → HasTask place None d → ReadsTask host place id faults result d e → (result ≡ Ok None) ⊎ (result ≡ Err (DiskFault faults)) }
{}
