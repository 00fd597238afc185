// Laws of parts that are laid over a volume.
ghost use Rattle.std.specs.Prelude.{◌≡◌, ℕ, List};
ghost use Rattle.sd_names.specs.declared.id.Id.{Id};
ghost use Rattle.shared_disk.specs.Content.{File};
ghost use Rattle.chain_model.specs.Chain.{IsBelow};
ghost use Rattle.chain_model.specs.Flat.{IsFlat};
ghost use Rattle.chain_model.specs.Folder.{Folder, OnEachFolder, Volumes, volumes_of};
ghost use Rattle.chain_laws.specs.Laid.{AreLaid, AreMixed, IsLaidOver, IsPartCovered, Laying, Reads};
ghost use Rattle.chain_laws.specs.Written.{ComesWritten, FileWritten, HoldsPart, IsChangedAt, IsWritten};

/// A law: where the volume holds each sector as before, or of the part as the part has it, or as it read where it held none,
/// each LEGAL volume reads as it did, but that each sector of the part may be old or new in this volume.
pub fn reads_stay_mixed()
    ensures { (l : Laying) (flats : Id → ℕ → List ℕ) (x y : Volumes) → IsBelow l.records l.volume l.below → IsFlat l.records flats x → Reads l l.reads x → IsPartCovered l x
        → IsWritten l x y → AreMixed l flats y }
{}

/// A law: once the volume holds the part, each LEGAL volume reads as it did, with the part laid over this one. So does the
/// volume itself, LEGAL or not.
pub fn parts_are_read()
    ensures flats { (l : Laying) (flats new : Id → ℕ → List ℕ) (x y : Volumes) → IsBelow l.records l.volume l.below → IsFlat l.records flats x → Reads l l.reads x → IsPartCovered l x
        → IsWritten l x y → HoldsPart l y → AreLaid l flats new → IsFlat l.records new y }
    ensures reads { (l : Laying) (new : ℕ → List ℕ) (x y : Volumes) → Reads l l.reads x → IsWritten l x y → HoldsPart l y → IsLaidOver l.part l.reads new → Reads l new y }
{}

/// A law: a part may be laid in any number of steps, in each of which the volume holds more of it. What was covered stays so.
pub fn writes_go_on()
    ensures itself { (l : Laying) (x : Volumes) → IsWritten l x x }
    ensures through { (l : Laying) (x y z : Volumes) → IsWritten l x y → IsWritten l y z → IsWritten l x z }
    ensures covered { (l : Laying) (x y : Volumes) → IsPartCovered l x → IsWritten l x y → IsPartCovered l y }
{}

/// A law: so it is on each outcome of a folder, where each outcome comes from one that it had before.
pub fn outcomes_come_from_outcomes()
    ensures itself { (l : Laying) (F : Folder) → ComesWritten l F F }
    ensures through { (l : Laying) (F G H : Folder) → ComesWritten l F G → ComesWritten l G H → ComesWritten l F H }
    ensures mixed { (l : Laying) (flats : Id → ℕ → List ℕ) (F G : Folder) → IsBelow l.records l.volume l.below
        → OnEachFolder F (λ O. IsFlat l.records flats (volumes_of O) × Reads l l.reads (volumes_of O) × IsPartCovered l (volumes_of O))
        → ComesWritten l F G → OnEachFolder G (λ O. AreMixed l flats (volumes_of O)) }
    ensures laid { (l : Laying) (flats new : Id → ℕ → List ℕ) (F G : Folder) → IsBelow l.records l.volume l.below
        → OnEachFolder F (λ O. IsFlat l.records flats (volumes_of O) × Reads l l.reads (volumes_of O) × IsPartCovered l (volumes_of O))
        → ComesWritten l F G → OnEachFolder G (λ O. HoldsPart l (volumes_of O)) → AreLaid l flats new → OnEachFolder G (λ O. IsFlat l.records new (volumes_of O)) }
{}

/// A law: where one file of a folder changed, and each of its outcomes holds what one from before held, with more of the
/// part, each outcome of the folder comes from one from before.
pub fn changed_files_are_written()
    ensures { (l : Laying) (f g : File) (F G : Folder) → IsChangedAt l.volume f g F G → FileWritten l f g → ComesWritten l F G }
{}
