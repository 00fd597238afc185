// Laws of what records say of an image's opening.
ghost use Rattle.std.specs.Prelude.{◌≡◌, ℕ, ◌≤◌, List, Contains, None, Some, length, unwrap_or};
ghost use Rattle.sd_names.specs.Id.{zero_id};
ghost use Rattle.sd_names.specs.declared.id.Id.{Id};
ghost use Rattle.sd_names.specs.declared.kinds.VolType.{VolType};
ghost use Rattle.sd_names.specs.declared.refusal.Refusal.{Refusal};
ghost use Rattle.sd_names.specs.declared.refusal.Refusal.TheVariants.{NoVolume};
ghost use Rattle.volume_meta.specs.declared.record.VolumeRecord.{VolumeRecord};
ghost use Rattle.chain_model.specs.Chain.{AllCount, IsBelow, counting, path_of};
ghost use Rattle.chain_model.specs.Folder.{Volumes};
ghost use Rattle.chain_model.specs.Headers.{NameNext, backing};
ghost use Rattle.chain_model.specs.Flat.{IsFlat};
ghost use Rattle.chain_model.specs.Own.{own};
ghost use Rattle.chain_model.specs.Opening.{Check, FirstRefusal, IsOpenable, OpenFault, Refuses, both, header, layer};
ghost use Rattle.chain_model.specs.Reading.{IsReading};
ghost use Rattle.chain_model.specs.Records.{Image, Records, is_legal, parent};
ghost use Rattle.chain_model.specs.Up.{up_of};
ghost use Rattle.chain_records.specs.Checks.{FirstIs, record_checks};
ghost use Rattle.chain_records.specs.Records.{first_missing, ids_of, records_in};
ghost use Rattle.chain_records.specs.Paths.{HasChain};
ghost use Rattle.chain_records.specs.Settling.{ArePartlyRewritten, AreRewritten, HasPassedParent, IsOver, IsRewritten, NameUps};
ghost use Rattle.chain_records.specs.Rewriting.{changed, naming, typed};
ghost use Rattle.chain_records.specs.Shown.{AreRead, IsShown};
ghost use Rattle.chain_records.specs.declared.volume.Volume.{Volume};

/// A law: where an image has at most 32 volumes, each with a text that reads as its record, the first missing file is
/// why it can't be opened. Where each file is there, it is the first check of the records that refuses; where none
/// does, the first one of the layers along the reading volume's path; and where none of those refuses, the image can be
/// opened.
pub fn records_refuse_as_the_opening()
    ensures files { (i : Image) (x : Volumes) (xs : List Volume) (v : Id) → AreRead i x xs
        → first_missing xs ≡ Some v → OpenFault i x (NoVolume v) }
    ensures records { (i : Image) (x : Volumes) (xs : List Volume) (e : Refusal) → IsShown i x xs
        → FirstIs (records_in xs) (record_checks (ids_of xs)) (Some e) → OpenFault i x e }
    ensures layers { (i : Image) (x : Volumes) (xs : List Volume) (v : Id) (vs : List Id) (e : Refusal)
        → IsShown i x xs → FirstIs (records_in xs) (record_checks (ids_of xs)) None
        → IsReading (records_in xs) v vs
        → FirstRefusal i x (ids_of xs) (both layer header (path_of (records_in xs) v vs)) e → OpenFault i x e }
    ensures openable { (i : Image) (x : Volumes) (xs : List Volume) (v : Id) (vs : List Id) → IsShown i x xs
        → FirstIs (records_in xs) (record_checks (ids_of xs)) None
        → IsReading (records_in xs) v vs
        → ((c : Check) → Contains (both layer header (path_of (records_in xs) v vs)) c → (e : Refusal)
        → Refuses i x (ids_of xs) c e → ⊥) → IsOpenable i x v vs }
{}

/// A law: once each parent is rewritten to the one that counts, what stands below a volume are those that counted, none
/// of which is passed over; each volume's path and legality, and the reading volume, are as they were. Exactly the
/// volumes name a volume over which it was the parent that counts. Where a record names no volume that is passed over,
/// its parent is the one that counts already; else there is one. Where headers name those too, each header of a path
/// names the next volume.
pub fn settling_keeps_paths()
    ensures below { (r s : Records) (v : Id) (vs : List Id) → AreRewritten r s → IsBelow r v vs
        → IsBelow s v (counting r vs) }
    ensures count { (r s : Records) (v : Id) (vs : List Id) → AreRewritten r s → IsBelow r v vs
        → AllCount s (counting r vs) }
    ensures path { (r s : Records) (v : Id) (vs : List Id) → AreRewritten r s → IsBelow r v vs
        → path_of s v (counting r vs) ≡ path_of r v vs }
    ensures legal { (r s : Records) (v : Id) → AreRewritten r s → is_legal s v ≡ is_legal r v }
    ensures reading { (r s : Records) (v : Id) (vs : List Id) → AreRewritten r s → IsReading r v vs
        → IsReading s v (counting r vs) }
    ensures named { (r s : Records) (v u : Id) → AreRewritten r s → IsOver r u v → parent s u ≡ Some v }
    ensures only { (r s : Records) (v u : Id) → AreRewritten r s → HasChain r u → parent s u ≡ Some v → IsOver r u v }
    ensures stays { (r : Records) (v : Id) (x : VolumeRecord) (vs : List Id) → r v ≡ Some x → IsBelow r v vs
        → (HasPassedParent r v → ⊥)
        → x.parent ≡ unwrap_or (up_of r vs) zero_id }
    ensures reached { (r : Records) (v : Id) (vs : List Id) → IsBelow r v vs → HasPassedParent r v
        → (up : Id) × IsOver r v up }
    ensures headers { (r s : Records) (y : Volumes) (v : Id) (vs : List Id) → AreRewritten r s → IsBelow r v vs
        → NameUps r s y (path_of r v vs)
        → NameNext s y (path_of s v (counting r vs)) }
{}

/// A law: where no check of the records refuses, each volume has a chain of volumes of the list, and its path is no
/// longer than the list.
pub fn paths_are_short()
    ensures chain { (xs : List Volume) (v : Id) → FirstIs (records_in xs) (record_checks (ids_of xs)) None
        → HasChain (records_in xs) v }
    ensures inside { (xs : List Volume) (v u : Id) (vs : List Id)
        → FirstIs (records_in xs) (record_checks (ids_of xs)) None → Contains (ids_of xs) v
        → IsBelow (records_in xs) v vs → Contains vs u → Contains (ids_of xs) u }
    ensures short { (xs : List Volume) (v : Id) (vs : List Id)
        → FirstIs (records_in xs) (record_checks (ids_of xs)) None → Contains (ids_of xs) v
        → IsBelow (records_in xs) v vs → length (path_of (records_in xs) v vs) ≤ length xs }
{}

/// A law: on the way of settling, whichever records are rewritten already, each volume has a chain where it had one,
/// the same path, legality, header's name and sectors, and so reads as it did; the reading volume is the same. Records
/// of which no check refuses still pass.
pub fn settling_reads_alike()
    ensures chain { (r s : Records) (v : Id) (vs : List Id) → ArePartlyRewritten r s → IsBelow r v vs → HasChain s v }
    ensures path { (r s : Records) (v : Id) (vs ws : List Id) → ArePartlyRewritten r s → IsBelow r v vs
        → IsBelow s v ws → path_of s v ws ≡ path_of r v vs }
    ensures legal { (r s : Records) (v : Id) → ArePartlyRewritten r s → is_legal s v ≡ is_legal r v }
    ensures reading { (r s : Records) (v : Id) (vs : List Id) → ArePartlyRewritten r s → IsReading r v vs
        → (ws : List Id) × IsReading s v ws }
    ensures named { (r s : Records) (y : Volumes) (v : Id) → ArePartlyRewritten r s → backing s y v ≡ backing r y v }
    ensures own { (r s : Records) (y : Volumes) (v : Id) (k : ℕ) → ArePartlyRewritten r s → own s y v k ≡ own r y v k }
    ensures flats { (r s : Records) (flats : Id → ℕ → List ℕ) (y : Volumes) → ArePartlyRewritten r s
        → ((v : Id) → HasChain r v) → IsFlat r flats y → IsFlat s flats y }
    ensures passes { (xs : List Volume) (s : Records) → ArePartlyRewritten (records_in xs) s
        → FirstIs (records_in xs) (record_checks (ids_of xs)) None → FirstIs s (record_checks (ids_of xs)) None }
{}

/// A law: settling goes volume by volume. A parent that is rewritten to the one that counts leaves records that are partly
/// rewritten; once each volume whose parent is passed over is, all are; and a VOLTYPE that is rewritten then keeps that.
pub fn settling_goes_by_volumes()
    ensures parent { (r s : Records) (v up : Id) → ArePartlyRewritten r s
        → ((vs : List Id) → IsBelow r v vs → up ≡ unwrap_or (up_of r vs) zero_id)
        → ArePartlyRewritten r (changed v (naming up) s) }
    ensures done { (r s : Records) → ArePartlyRewritten r s
        → ((v : Id) → HasPassedParent r v → IsRewritten r v (r v) (s v)) → AreRewritten r s }
    ensures voltype { (r s : Records) (v : Id) (t : VolType) → AreRewritten r s
        → AreRewritten r (changed v (typed t) s) }
{}
