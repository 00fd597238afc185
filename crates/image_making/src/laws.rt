// Laws of making an image: contracts of functions that do nothing.
ghost use Rattle.std.specs.Prelude.{◌≡◌, ◌⊎◌, ℕ, [], Option};
ghost use Rattle.sd_names.specs.declared.id.Id.{Id};
ghost use Rattle.sd_names.specs.declared.place.Dir.{Dir};
ghost use Rattle.sd_names.specs.declared.place.Dir.TheVariants.{Images};
ghost use Rattle.sd_names.specs.declared.place.Place.{Place};
ghost use Rattle.sd_names.specs.declared.refusal.Refusal.{Refusal};
ghost use Rattle.shared_disk.specs.Content.{Content, zero_sector};
ghost use Rattle.shared_disk.specs.Crash.{IsOutcome};
ghost use Rattle.chain_model.specs.Flat.{flat};
ghost use Rattle.chain_model.specs.Headers.{IsBacked};
ghost use Rattle.chain_model.specs.Opening.{IsOpenable, OpenFault};
ghost use Rattle.chain_model.specs.Records.{records_of};
ghost use Rattle.volume_texts.specs.Legible.{HasRecord};
ghost use Rattle.image_making.specs.Chain.{image_in, volumes_in};
ghost use Rattle.image_making.specs.Making.{image_of};
ghost use Rattle.image_making.specs.NewImage.{IsImage, IsNoneOrWhole, IsNoneOrWholeOnEach, folder_of, text_place};
ghost use Rattle.image_making.specs.Record.{IsBase};
ghost use Rattle.image_making.specs.Steps.{Knows};
ghost use Rattle.image_making.specs.declared.making.ImageMaking.{ImageMaking as AnyMaking};
ghost use Rattle.image_making.specs.declared.making.NewImage.{NewImage as AnyImage};

/// An image that was made is whole on each outcome, and a volume that doesn't count counts on none.
pub fn a_made_image_survives_crashes()
    ensures whole { (x : AnyImage) (d o : Content) → IsImage x d → IsOutcome d o → IsImage x o }
    ensures either { (x : AnyImage) (d : Content) → IsNoneOrWhole x d → IsNoneOrWholeOnEach x d }
{}

/// The text of an image that was made reads as its record, and the image can be opened: no check of an opening refuses, and
/// its volume, on whose path no other one stands, is the one that guests read and write.
pub fn a_made_image_can_be_opened()
    ensures says { (x : AnyImage) (d : Content) → IsBase x.says → IsImage x d → HasRecord x.version (text_place x) x.says d }
    ensures openable { (x : AnyImage) (d : Content) → IsBase x.says → IsImage x d → IsOpenable (image_in x) (volumes_in x d) x.volume [] }
    ensures none { (x : AnyImage) (d : Content) (refusal : Refusal) → IsBase x.says → IsImage x d → OpenFault (image_in x) (volumes_in x d) refusal → ⊥ }
{}

/// Each sector of a made image's volume reads as zeros, and so by the name in its header.
pub fn a_made_image_reads_as_zeros()
    ensures flat { (x : AnyImage) (d : Content) (k : ℕ) → IsBase x.says → IsImage x d → flat (records_of (image_in x) (volumes_in x d)) (volumes_in x d) x.volume [] k ≡ zero_sector }
    ensures backed { (x : AnyImage) (d : Content) → IsBase x.says → IsImage x d → IsBacked (records_of (image_in x) (volumes_in x d)) (volumes_in x d) x.volume [] }
{}

/// What a making knows stays true under each change that leaves the image's folder and the files in it alone, and the domain's
/// folder of images.
pub fn image_knowledge_survives_others()
    ensures { (m : AnyMaking) (host : ℕ) (d e : Content) → e.dir (Images (image_of m).says.domain) ≡ d.dir (Images (image_of m).says.domain) → e.dir (folder_of (image_of m)) ≡ d.dir (folder_of (image_of m)) → ((q : Place) → q.dir ≡ folder_of (image_of m) → e.file q ≡ d.file q) → Knows m host d → Knows m host e }
{}
