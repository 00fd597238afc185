// Laws of the disk's definitions: contracts of functions that do nothing.
ghost use Rattle.std.specs.Prelude.{◌≡◌, ℕ, ◌+◌, ◌-◌, ◌<◌, ◌≤◌, ◌⊎◌, ◌++◌, ◌≢◌, All, Bool, true, Contains, List, [], Option, None, Some, Result, Ok, unwrap_or};
ghost use Rattle.sd_names.specs.declared.place.Dir.{Dir};
ghost use Rattle.sd_names.specs.declared.place.Dir.TheVariants.{Root};
ghost use Rattle.sd_names.specs.declared.place.Name.{Name};
ghost use Rattle.sd_names.specs.declared.place.Place.{Place};
ghost use Rattle.shared_disk.specs.declared.disk.DiskAnswer.{DiskAnswer};
ghost use Rattle.shared_disk.specs.declared.disk.DiskAnswer.TheVariants.{Failed};
ghost use Rattle.shared_disk.specs.declared.disk.Exchanged.{Exchanged};
ghost use Rattle.shared_disk.specs.Calls.{Creates, IsPut, MakesDir, Rose, Syncs, WriteAt, synced, wrote};
ghost use Rattle.shared_disk.specs.Changes.{IsChangedAt, exchanged, raised};
ghost use Rattle.shared_disk.specs.Content.{Content, File, IsEmpty, Loose, Sees, own_of, seen, without, writes, sector_of, zero_sector};
ghost use Rattle.shared_disk.specs.NameCalls.{AreImageDirs, HasEntry, IsRenamed, MovesDir, Removes, RemovesDir, Renames};
ghost use Rattle.shared_disk.specs.Refusal.{IsRisen, refusal_of};
ghost use Rattle.shared_disk.specs.SectorCalls.{Exchanges, Grows};
ghost use Rattle.shared_disk.specs.Step.{IsDiskRefusal};
ghost use Rattle.shared_disk.specs.Crash.{AllDown, Covers, DownLeaves, IsAlone, IsAloneAt, IsDownFile, IsFileOutcome, IsLaidOver, IsOutcome, IsOutcomeSector, IsSector, IsSettled, IsSettledFor, stable_folder, with_file};
ghost use Rattle.shared_disk.specs.WellFormed.{IsHost, IsWellFormed, IsWellFormedFile};

/// What a host that is alone in a file sees of a sector, and a sync puts onto the medium, after it wrote a piece: the
/// piece's sectors where the write was done whole, and what was there (`before`) elsewhere. Where only some sectors
/// were written, each is the one or the other.
pub fn own_write_is_seen()
    ensures within { (host at n k : ℕ) (bytes before : List ℕ) → at ≤ k → k < at + n → unwrap_or (own_of host k (writes (λ _. true) host at bytes n)) before ≡ sector_of bytes (k - at) }
    ensures outside { (did : ℕ → Bool) (host at n k : ℕ) (bytes before : List ℕ) → (k < at) ⊎ (at + n ≤ k) → unwrap_or (own_of host k (writes did host at bytes n)) before ≡ before }
    ensures either { (did : ℕ → Bool) (host at n k : ℕ) (bytes before : List ℕ) → (unwrap_or (own_of host k (writes did host at bytes n)) before ≡ before) ⊎ ((at ≤ k) × (k < at + n) × (unwrap_or (own_of host k (writes did host at bytes n)) before ≡ sector_of bytes (k - at))) }
{}

/// A host's writes of a piece are gone with its other unsynced writes; those of all other hosts stay.
pub fn own_writes_go_together()
    ensures { (did : ℕ → Bool) (host at n : ℕ) (bytes : List ℕ) (others : List Loose) → without host (writes did host at bytes n ++ others) ≡ without host others }
{}

/// An outcome of a file after a write, one that failed included, is an outcome from before with some of the written
/// sectors laid over it.
pub fn outcome_after_a_write()
    ensures { (did : ℕ → Bool) (host at : ℕ) (bytes : List ℕ) (f g : File) → IsFileOutcome (wrote did host at bytes f) g → (o : File) × IsFileOutcome f o × IsLaidOver did at bytes o g }
{}

/// An outcome of a file after a sync is an outcome from before. Where no other host has anything unsynced in it, it is
/// the file as the host saw it; so is each sector of which no other host has an unsynced write, where no other host has
/// made the file and not synced it.
pub fn outcome_after_a_sync()
    ensures before { (host : ℕ) (f g : File) → IsFileOutcome (synced host f) g → IsFileOutcome f g }
    ensures alone { (host : ℕ) (f g : File) → IsAlone host f → IsFileOutcome (synced host f) g → (k : ℕ) → g.stable k ≡ seen host f k }
    ensures sector { (host k : ℕ) (f g : File) → IsAloneAt host k f → IsFileOutcome (synced host f) g → g.stable k ≡ seen host f k }
    ensures everywhere { (host k : ℕ) (f : File) → IsAlone host f → IsAloneAt host k f }
{}

/// An outcome after a host went down is an outcome from before, of a file and of a folder.
pub fn outcome_after_a_down()
    ensures file { (host : ℕ) (f g o : File) → IsDownFile host f g → IsFileOutcome g o → IsFileOutcome f o }
    ensures folder { (host : ℕ) (d e o : Content) → DownLeaves d host e → IsOutcome e o → IsOutcome d o }
{}

/// The outcomes of a folder are what is left when the hosts that have something unsynced in it go down one after the
/// other, in any order and however often.
pub fn outcomes_are_what_hosts_leave()
    ensures reached { (hosts : List ℕ) (d e : Content) → Covers hosts d → IsOutcome d e → AllDown d hosts e }
    ensures all { (hosts : List ℕ) (d e : Content) → Covers hosts d → AllDown d hosts e → IsOutcome d e }
{}

/// A file with nothing unsynced is its only outcome.
pub fn outcome_of_a_settled_file()
    ensures only { (f g : File) → IsSettled f → IsFileOutcome f g → g ≡ f }
    ensures itself { (f : File) → IsSettled f → IsFileOutcome f f }
{}

/// Each folder has an outcome, and an outcome of one of its files in place of the one that an outcome of the folder
/// has gives an outcome again.
pub fn outcomes_file_by_file()
    ensures some { (d : Content) → IsOutcome d (stable_folder d) }
    ensures one { (d o : Content) (p : Place) (f g : File) → d.file p ≡ Some f → IsFileOutcome f g → IsOutcome d o → IsOutcome d (with_file p g o) }
    ensures here { (o : Content) (p : Place) (g : File) → (with_file p g o).file p ≡ Some g }
    ensures other { (o : Content) (p q : Place) (g : File) → q ≢ p → (with_file p g o).file q ≡ o.file q }
{}

/// An outcome after a change of one file is an outcome from before with that file changed, whichever outcome of the
/// file that one has.
pub fn outcome_after_a_change()
    ensures { (d e o : Content) (p : Place) (f g : File) (new : Option File) → IsPut d p new e → d.file p ≡ Some f → IsFileOutcome f g → IsOutcome e o → IsOutcome d (with_file p g o) × IsPut (with_file p g o) p (o.file p) o }
{}

/// An outcome of a file after an exchange of a sector, where the file isn't fresh, is one from before with the new
/// sector in its place.
pub fn outcome_after_an_exchange()
    ensures { (sector : ℕ) (next : List ℕ) (f g : File) → f.fresh ≡ None → IsFileOutcome (exchanged sector next f) g → (o : File) × IsFileOutcome f o × IsChangedAt sector next o g }
{}

/// A sector that a file had is on an outcome, after the file was raised, as on one from before. The further sectors are
/// zeros, where the file isn't fresh and its unsynced writes lie within its old size.
pub fn outcome_after_a_raise()
    ensures old { (size k : ℕ) (f : File) (b : List ℕ) → k < f.size → IsOutcomeSector (raised size f) k b → IsOutcomeSector f k b }
    ensures new { (size k : ℕ) (f : File) (b : List ℕ) → f.size ≤ k → f.fresh ≡ None → ((l : Loose) → Contains f.loose l → l.sector < f.size) → IsOutcomeSector (raised size f) k b → b ≡ zero_sector }
{}

/// An outcome after a rename is an outcome from before with the file at its new name and none at the old one. It has
/// what that one had everywhere else.
pub fn outcome_after_a_rename()
    ensures { (d e o : Content) (from to : Place) → IsRenamed d from to e → IsOutcome e o → (b : Content) × IsOutcome d b × IsRenamed b from to o }
{}

/// An outcome after a removal is an outcome from before without the file, whichever outcome the file had, and as that
/// one everywhere else.
pub fn outcome_after_a_removal()
    ensures { (d e o : Content) (p : Place) (f g : File) → d.file p ≡ Some f → IsPut d p None e → IsFileOutcome f g → IsOutcome e o → IsOutcome d (with_file p g o) × IsPut (with_file p g o) p None o }
{}

/// Outcomes of two files are on one outcome of their folder.
pub fn outcomes_of_two_files()
    ensures { (d : Content) (p q : Place) (f g x y : File) → d.file p ≡ Some f → d.file q ≡ Some g → IsFileOutcome f x → IsFileOutcome g y → IsOutcome d (with_file p x (with_file q y (stable_folder d))) }
{}

/// A folder that is well formed stays so: each call keeps it, whatever its answer, and each crash.
pub fn each_call_keeps_a_folder_well_formed()
    ensures write_at { (d e : Content) (host at : ℕ) (p : Place) (bytes : List ℕ) (answer : Result (Unit {0}) DiskAnswer) → IsHost host → All (λ b. b < 256) bytes → IsWellFormed d → WriteAt d host p at bytes answer e → IsWellFormed e }
    ensures sync { (d e : Content) (host : ℕ) (p : Place) (answer : Result (Unit {0}) DiskAnswer) → IsWellFormed d → Syncs d host p answer e → IsWellFormed e }
    ensures create { (d e : Content) (host size : ℕ) (p : Place) (answer : Result (Unit {0}) DiskAnswer) → IsHost host → IsWellFormed d → Creates d host p size answer e → IsWellFormed e }
    ensures grow { (d e : Content) (size : ℕ) (p : Place) (answer : Result (Unit {0}) DiskAnswer) → IsWellFormed d → Grows d p size answer e → IsWellFormed e }
    ensures exchange { (d e : Content) (host sector : ℕ) (p : Place) (expect next : List ℕ) (answer : Result Exchanged DiskAnswer) → IsSector next → IsWellFormed d → Exchanges d host p sector expect next answer e → IsWellFormed e }
    ensures rename { (d e : Content) (from : Place) (to : Name) (answer : Result (Unit {0}) DiskAnswer) → IsWellFormed d → Renames d from to answer e → IsWellFormed e }
    ensures remove { (d e : Content) (p : Place) (answer : Result (Unit {0}) DiskAnswer) → IsWellFormed d → Removes d p answer e → IsWellFormed e }
    ensures make_dir { (d e : Content) (dir : Dir) (answer : Result (Unit {0}) DiskAnswer) → IsWellFormed d → MakesDir d dir answer e → IsWellFormed e }
    ensures remove_dir { (d e : Content) (dir : Dir) (answer : Result (Unit {0}) DiskAnswer) → dir ≢ Root → IsWellFormed d → RemovesDir d dir answer e → IsWellFormed e }
    ensures move_dir { (d e : Content) (from to : Dir) (answer : Result (Unit {0}) DiskAnswer) → AreImageDirs from to → IsWellFormed d → MovesDir d from to answer e → IsWellFormed e }
    ensures down { (d e : Content) (host : ℕ) → IsWellFormed d → DownLeaves d host e → IsWellFormed e }
    ensures outcome { (d o : Content) → IsWellFormed d → IsOutcome d o → IsWellFormed o }
{}

/// What follows where a folder is well formed: a folder that was just made is empty, and a host sees a sector of bytes at
/// each place of a file. A folder that is empty but for its root is well formed.
pub fn what_is_well_formed()
    ensures new { (d e : Content) (dir : Dir) → IsWellFormed d → MakesDir d dir (Ok tt) e → HasEntry e dir → ⊥ }
    ensures seen { (host k : ℕ) (f : File) → IsWellFormedFile f → IsSector (seen host f k) }
    ensures empty { (d : Content) → IsEmpty d → IsWellFormed d }
{}

/// A host sees one value of each sector of a file in which no other host has unsynced writes.
pub fn a_host_alone_sees_one_value()
    ensures { (host k : ℕ) (f : File) (bytes : List ℕ) → without host f.loose ≡ [] → Sees host f k bytes → bytes ≡ seen host f k }
{}

/// A host that goes down leaves a file as it is in which it has nothing unsynced, and no file where none was.
pub fn a_settled_host_leaves_a_file()
    ensures file { (host : ℕ) (f g : File) → IsSettledFor host f → IsDownFile host f g → g ≡ f }
    ensures there { (d e : Content) (host : ℕ) (p : Place) (f : File) → DownLeaves d host e → d.file p ≡ Some f → IsSettledFor host f → e.file p ≡ Some f }
    ensures none { (d e : Content) (host : ℕ) (p : Place) → DownLeaves d host e → d.file p ≡ None → e.file p ≡ None }
{}

/// What a host sees of a sector stays when another host writes in the file. It stays when that host syncs the file or
/// goes down, where it has no write of the sector and, going down, hasn't made the file; and it stays when another
/// sector is exchanged and when the file is raised.
pub fn what_a_host_sees_stays()
    ensures write { (did : ℕ → Bool) (host other at k : ℕ) (bytes : List ℕ) (f : File) → host ≢ other → seen host (wrote did other at bytes f) k ≡ seen host f k }
    ensures sync { (host other k : ℕ) (f : File) → host ≢ other → own_of other k f.loose ≡ None → seen host (synced other f) k ≡ seen host f k }
    ensures down { (host other k : ℕ) (f g : File) → host ≢ other → own_of other k f.loose ≡ None → f.fresh ≢ Some other → IsDownFile other f g → seen host g k ≡ seen host f k }
    ensures exchange { (host sector k : ℕ) (next : List ℕ) (f : File) → k ≢ sector → seen host (exchanged sector next f) k ≡ seen host f k }
    ensures raise { (host size k : ℕ) (f : File) → k < f.size → seen host (raised size f) k ≡ seen host f k }
{}

/// The refusal for an answer of a disk tells which answer it was, and comes as a fault only where the count of faults
/// rose, where the disk answers `Failed` only there.
pub fn a_refusal_stands_for_one_answer()
    ensures one { (a b : DiskAnswer) (m n : ℕ) → refusal_of a m ≡ refusal_of b n → a ≡ b }
    ensures of_disk { (a : DiskAnswer) (n : ℕ) → IsDiskRefusal (refusal_of a n) }
    ensures risen { (a : DiskAnswer) (before after : ℕ) → (a ≡ Failed → Rose before after) → (a ≢ Failed → after ≡ before) → IsRisen before after (refusal_of a after) }
{}
