// Laws of clearing an image away: contracts of functions that do nothing.
ghost use Rattle.std.specs.Prelude.{◌≡◌, ℕ, Some};
ghost use Rattle.sd_names.specs.declared.id.Id.{Id};
ghost use Rattle.shared_disk.specs.Content.{Content, File};
ghost use Rattle.shared_disk.specs.Crash.{DownLeaves, IsSettledFor};
ghost use Rattle.lease_area.specs.Hold.{leases_of};
ghost use Rattle.lease_area.specs.declared.sector.LeaseRecord.{LeaseRecord};
ghost use Rattle.image_clearing.specs.Clearing.{IsBegun, domain_of, image_of};
ghost use Rattle.image_clearing.specs.Knowing.{Knows, KnowsImage};
ghost use Rattle.image_clearing.specs.Others.{IsKeptByOthers};
ghost use Rattle.image_clearing.specs.Standing.{IsLeft, IsLeftOnEach};
ghost use Rattle.image_clearing.specs.declared.clearing.ImageClearing.{ImageClearing as AnyClearing};

/// A clearing that has begun knows what its first stage says, where the leases file is there, whole and with nothing unsynced,
/// each sector that names the image is held for a task, and the identifiers of the names in its folders have sixteen bytes.
pub fn a_begun_clearing_knows_its_image()
    ensures { (sd image : Id) (c : AnyClearing) (d : Content) → IsBegun sd image c → KnowsImage sd image d → Knows c d }
{}

/// An image that is still under its sector, or is gone with the sector empty, is so on each outcome.
pub fn a_clearing_survives_crashes()
    ensures { (sd image : Id) (slot : ℕ) (r : LeaseRecord) (d : Content) → IsLeft sd image slot r d → IsLeftOnEach sd image slot r d }
{}

/// What a clearing knows stays true under each change of others that leaves the image's two folders there or not, as they are, and
/// puts no file into them, and in the leases file gives the image no sector, and leaves one that is held for its task as it is. So
/// too where another host goes down that has nothing unsynced in the leases file.
pub fn clearing_knowledge_survives_others()
    ensures change { (c : AnyClearing) (d e : Content) → IsKeptByOthers (domain_of c) (image_of c) d e → Knows c d → Knows c e }
    ensures down { (c : AnyClearing) (other : ℕ) (d e : Content) → DownLeaves d other e → ((f : File) → d.file (leases_of (domain_of c)) ≡ Some f → IsSettledFor other f) → Knows c d → Knows c e }
{}
