// Laws of guests' writes: contracts of functions that do nothing.
ghost use Rattle.std.specs.Prelude.{◌≡◌, ◌+◌, ◌^◌, ◌≤◌, ℕ, List, length, Contains, Some};
ghost use Rattle.sd_names.specs.declared.id.Id.{Id};
ghost use Rattle.shared_disk.specs.Content.{Content};
ghost use Rattle.shared_disk.specs.WellFormed.{IsWellFormed};
ghost use Rattle.volume_meta.specs.declared.record.VolumeRecord.{VolumeRecord};
ghost use Rattle.chain_model.specs.Folder.{Folder, Volumes, folder_of};
ghost use Rattle.chain_laws.specs.Laid.{Laying};
ghost use Rattle.chain_laws.specs.Written.{ComesWritten};
ghost use Rattle.chain_records.specs.Records.{records_in};
ghost use Rattle.chain_gathering.specs.Knowing.{AreSettled};
ghost use Rattle.volume_chain.specs.Chain.{IsShaped, dir_in, open_in, path_in, records_kept, target_of};
ghost use Rattle.volume_chain.specs.Knowing.{KnowsChain};
ghost use Rattle.volume_chain.specs.declared.chain.Chain.{Chain};
ghost use Rattle.raw_writing.specs.Image.{AreSettledBut};
ghost use Rattle.guest_laws.specs.Write.{KnowsOthers};
ghost use Rattle.guest_writing.specs.Guest.{IsWrittenChain, Knows};
ghost use Rattle.guest_writing.specs.Knowing.{AreWhole, MayBeWritten};
ghost use Rattle.guest_writing.specs.Way.{StandsOpen};
ghost use Rattle.guest_writing.specs.declared.guest.GuestWrite.{GuestWrite as AnyWrite};

/// A law: each volume of the path of an open chain stands open for a part within its capacity (`begin`), and where all volumes of
/// a path are open, for each part that ends at 2^62 at the latest (`all`). It does so still after each step of a write (`kept`),
/// which leaves the path and how many of its volumes are open (`same`).
pub fn volumes_stand_open()
    ensures begin { (c : Chain) (v : Id) (x : VolumeRecord) (at count : ℕ) → IsShaped c → length (open_in c) ≡ length (path_in c) → Contains (path_in c) v → records_in (records_kept c) v ≡ Some x
        → at + count ≤ x.capacity → StandsOpen c v at count }
    ensures all { (c : Chain) (v : Id) (at count : ℕ) → length (open_in c) ≡ length (path_in c) → Contains (path_in c) v → at + count ≤ 2 ^ 62 → StandsOpen c v at count }
    ensures same { (w : AnyWrite) (c next : Chain) → IsWrittenChain w c next → (path_in next ≡ path_in c) × (length (open_in next) ≡ length (open_in c)) }
    ensures kept { (w : AnyWrite) (c next : Chain) (v : Id) (at count : ℕ) → IsWrittenChain w c next → StandsOpen c v at count → StandsOpen next v at count }
{}

/// A law: where a chain knows its image, nothing in it is unsynced, and the files of its path's layers are of whole clusters, as a
/// settling leaves them, the image may be written.
pub fn settled_images_may_be_written()
    ensures { (c : Chain) (host : ℕ) (d : Content) → KnowsChain c host d → AreSettled (dir_in (target_of c)) d → IsWellFormed d → AreWhole c d → MayBeWritten c host d }
{}

/// A law: between the steps of a write the chain knows all of the image but the file of the volume that is written, in which alone
/// something may be unsynced, and each outcome of the folder comes from one of the begin.
pub fn images_are_known()
    ensures others { (w : AnyWrite) (c : Chain) (l : Laying) (x : VolumeRecord) (old : Volumes) (host : ℕ) (start : Folder) (room : List ℕ) (d : Content) → Knows w c l x old host start room d → KnowsOthers c l.volume host d }
    ensures rest { (w : AnyWrite) (c : Chain) (l : Laying) (x : VolumeRecord) (old : Volumes) (host : ℕ) (start : Folder) (room : List ℕ) (d : Content) → Knows w c l x old host start room d
        → AreSettledBut (dir_in (target_of c)) l.volume d }
    ensures comes { (w : AnyWrite) (c : Chain) (l : Laying) (x : VolumeRecord) (old : Volumes) (host : ℕ) (start : Folder) (room : List ℕ) (d : Content) → Knows w c l x old host start room d
        → ComesWritten l start (folder_of (dir_in (target_of c)) d) }
{}
