// Laws of a header that loses features while a part is laid over its layer's volume.
ghost use Rattle.std.specs.Prelude.{◌≡◌, ◌↔◌, ℕ, Some};
ghost use Rattle.sd_names.specs.declared.kinds.Format.TheVariants.{Cow};
ghost use Rattle.shared_disk.specs.Content.{File};
ghost use Rattle.shared_disk.specs.WellFormed.{IsWellFormedFile};
ghost use Rattle.qcow_format.specs.declared.header.Header.{Header};
ghost use Rattle.volume_meta.specs.declared.record.VolumeRecord.{VolumeRecord};
ghost use Rattle.image_model.specs.File as image;
ghost use Rattle.layer_laws.specs.Laws.{layer};
ghost use Rattle.layer_heading.specs.Cleared.{IsOldOrCleared, cleared};
ghost use Rattle.layer_writing.specs.Holding.{ComesBy};
ghost use Rattle.layer_writing.specs.Writer.{KnowsWriter};
ghost use Rattle.qcow_layer.specs.Opening.{capacity_kept, header_kept};
ghost use Rattle.qcow_layer.specs.declared.layer.Layer.{Layer};
ghost use Rattle.chain_laws.specs.Laid.{Laying};
ghost use Rattle.chain_laws.specs.Written.{FileWritten};
ghost use Rattle.write_planning.specs.declared.plan.WritePlan.{WritePlan};
ghost use Rattle.part_survey.specs.Survey.{HasFound};
ghost use Rattle.clearing_laws.specs.Either.{AreEither, IsFoundOnEach};

/// A law: a file that the layer's writer knows is such a file on each outcome, and each change by which an outcome is an old
/// one, or an old one without the features, leaves such a file.
pub fn clearings_begin()
    ensures known { (x : VolumeRecord) (w : Layer) (host : ℕ) (f : File) → KnowsWriter w host f → IsWellFormedFile f → x.format ≡ Cow → x.capacity ≡ capacity_kept w → AreEither x (header_kept w) f }
    ensures still { (x : VolumeRecord) (h : Header) (f g : File) → AreEither x h f → IsWellFormedFile g → ComesBy (IsOldOrCleared h x.capacity) f g → AreEither x h g }
{}

/// A law: such a change is a step of the write of a part, since the volume holds on each outcome what it held.
pub fn cleared_files_are_written()
    ensures { (l : Laying) (x : VolumeRecord) (h : Header) (f g : File) → l.records l.volume ≡ Some x → AreEither x h f → AreEither x h g → ComesBy (IsOldOrCleared h x.capacity) f g → FileWritten l f g }
{}

/// A law: what was found of the part's clusters, entries and tables, is still what the layer says on each outcome.
pub fn clearings_keep_what_was_found()
    ensures { (p : WritePlan) (x : VolumeRecord) (h : Header) (f g : File) → AreEither x h f → IsFoundOnEach p h f → ComesBy (IsOldOrCleared h x.capacity) f g → IsFoundOnEach p h g }
{}

/// A law: a layer says the same of its clusters by the header with the features and by the one without them.
pub fn headers_find_alike()
    ensures { (p : WritePlan) (h : Header) (f : image.File) → HasFound p (layer h f) ↔ HasFound p (layer (cleared h) f) }
{}
