// Laws of removing an image's files: contracts of functions that do nothing.
ghost use Rattle.std.specs.Prelude.{◌≡◌, ◌⊎◌, None};
ghost use Rattle.sd_names.specs.declared.id.Id.{Id};
ghost use Rattle.sd_names.specs.declared.place.Dir.TheVariants.{Image, Removed};
ghost use Rattle.sd_names.specs.declared.place.Place.{Place};
ghost use Rattle.shared_disk.specs.Content.{Content};
ghost use Rattle.shared_disk.specs.Crash.{IsOutcome};
ghost use Rattle.shared_disk.specs.WellFormed.{IsWellFormed};
ghost use Rattle.image_removing.specs.Removing.{own_folder, removed_folder};
ghost use Rattle.image_removing.specs.Steps.{IsGone, Knows};
ghost use Rattle.image_removing.specs.declared.removing.ImageRemoving.{ImageRemoving as AnyRemoving};

/// An image that has no folder has none on each outcome, and no file.
pub fn a_removed_image_survives_crashes()
    ensures gone { (sd image : Id) (d o : Content) → IsGone sd image d → IsOutcome d o → IsGone sd image o }
    ensures files { (sd image : Id) (d : Content) (q : Place) → IsWellFormed d → IsGone sd image d → (q.dir ≡ Image sd image) ⊎ (q.dir ≡ Removed sd image) → d.file q ≡ None }
{}

/// What a removal knows stays true under each change that leaves the image's two folders and their files alone.
pub fn removal_knowledge_survives_others()
    ensures { (r : AnyRemoving) (d e : Content) → e.dir (own_folder r) ≡ d.dir (own_folder r) → e.dir (removed_folder r) ≡ d.dir (removed_folder r) → ((q : Place) → (q.dir ≡ own_folder r) ⊎ (q.dir ≡ removed_folder r) → e.file q ≡ d.file q) → Knows r d → Knows r e }
{}
