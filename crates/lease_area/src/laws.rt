// Laws of lease sectors: contracts of functions that do nothing.
ghost use Rattle.std.specs.Prelude.{◌≡◌, ℕ, ◌*◌, ◌/◌, ◌<◌, List, Some, None};
ghost use Rattle.sd_names.specs.declared.id.Id.{Id};
ghost use Rattle.shared_disk.specs.Content.{Content};
ghost use Rattle.shared_disk.specs.Crash.{IsOutcome};
ghost use Rattle.lease_area.specs.Hold.{IsMoved, Stands};
ghost use Rattle.lease_area.specs.Noted.{empty_at, first_of, lease_at};
ghost use Rattle.lease_area.specs.Sector.{sector_bytes};
ghost use Rattle.lease_area.specs.WholeScan.{HasLease, IsEmptySector, IsLeast, IsReadIn, IsScan, sector_read};
ghost use Rattle.lease_area.specs.declared.scanned.Scanned.{Scanned};
ghost use Rattle.lease_area.specs.declared.sector.LeaseRecord.{LeaseRecord};
ghost use Rattle.lease_area.specs.declared.sector.Sector.{Sector};

/// A sector that one exchange put there stands there on each outcome, whatever crashes follow.
pub fn moves_survive_crashes()
    ensures { (d e o : Content) (sd : Id) (slot : ℕ) (bytes : List ℕ) (new : Sector) → Stands d sd slot bytes → IsMoved d sd slot new e → IsOutcome e o → Stands o sd slot (sector_bytes new) }
{}

/// What a step notes is the least sector of what it read: the least that names the image, and the least empty one; and it
/// notes none exactly where none is there.
pub fn noted_sectors_are_least()
    ensures lease { (image : Id) (from n : ℕ) (room : List ℕ) (a : ℕ × LeaseRecord) → first_of (lease_at image from room) n ≡ Some a
        → (k : ℕ) × (k < n) × (lease_at image from room k ≡ Some a) × ((j : ℕ) → j < k → lease_at image from room j ≡ None) }
    ensures no_lease { (image : Id) (from n : ℕ) (room : List ℕ) → first_of (lease_at image from room) n ≡ None → (k : ℕ) → k < n → lease_at image from room k ≡ None }
    ensures empty { (from n a : ℕ) (room : List ℕ) → first_of (empty_at from room) n ≡ Some a
        → (k : ℕ) × (k < n) × (empty_at from room k ≡ Some a) × ((j : ℕ) → j < k → empty_at from room j ≡ None) }
    ensures no_empty { (from n : ℕ) (room : List ℕ) → first_of (empty_at from room) n ≡ None → (k : ℕ) → k < n → empty_at from room k ≡ None }
{}

/// The steps of a scan together: after so many of them, each sector of their part of the file was read as the host saw it in
/// its step's moment; what was seen is the least of these sectors that names the image, with its lease, or that none of them
/// does, and the least of them that is empty, or that none is. A whole scan has eight steps, and the sectors 1 to 1,023.
pub fn scans_find_the_least()
    ensures reads { (steps host : ℕ) (sd image : Id) (folders : ℕ → Content) (before rooms : ℕ → List ℕ) (seen : ℕ → Scanned) → IsScan steps host sd image folders before rooms seen
        → (k : ℕ) → k < 128 * steps → IsReadIn host sd k (sector_read sd folders rooms k) (folders (k / 128)) }
    ensures found { (steps host : ℕ) (sd image : Id) (folders : ℕ → Content) (before rooms : ℕ → List ℕ) (seen : ℕ → Scanned) → IsScan steps host sd image folders before rooms seen
        → IsLeast (λ k a. HasLease image k (sector_read sd folders rooms k) a) (128 * steps) (seen steps).found }
    ensures empty { (steps host : ℕ) (sd image : Id) (folders : ℕ → Content) (before rooms : ℕ → List ℕ) (seen : ℕ → Scanned) → IsScan steps host sd image folders before rooms seen
        → IsLeast (λ k a. IsEmptySector k (sector_read sd folders rooms k) a) (128 * steps) (seen steps).empty }
{}
