// Laws of what calls leave unsynced: contracts of functions that do nothing.
ghost use Rattle.std.specs.Prelude.{◌≡◌, ℕ, Bool, true, List, Option, Result};
ghost use Rattle.sd_names.specs.declared.place.Dir.{Dir};
ghost use Rattle.sd_names.specs.declared.place.Name.{Name};
ghost use Rattle.sd_names.specs.declared.place.Place.{Place};
ghost use Rattle.sd_names.specs.declared.turn.Turn.{Turn};
ghost use Rattle.shared_disk.specs.Calls.{Creates, HasLength, MakesDir, ReadAt, Syncs, WriteAt};
ghost use Rattle.shared_disk.specs.Content.{Content, File};
ghost use Rattle.shared_disk.specs.Crash.{DownLeaves, IsDownFile, IsSettledFor};
ghost use Rattle.shared_disk.specs.NameCalls.{MovesDir, NextDir, NextName, Removes, RemovesDir, Renames};
ghost use Rattle.shared_disk.specs.SectorCalls.{Exchanges, Grows};
ghost use Rattle.shared_disk.specs.declared.disk.DiskAnswer.{DiskAnswer};
ghost use Rattle.shared_disk.specs.declared.disk.Exchanged.{Exchanged};
ghost use Rattle.whole_file.specs.Replace.{CallOf, stage_of};
ghost use Rattle.whole_file.specs.declared.replace.Replace.{Replace};
ghost use Rattle.unsynced_laws.specs.Unsynced.{HasOnlyOf, IsSettledAt, LeavesOnlyOf, LeavesOnlyOld, but};

/// A law: behind a call that changes a file, whoever has something unsynced had something before, or is the call's host. A
/// rename, a removal, a longer length and an exchange make nothing unsynced.
pub fn calls_leave_only_theirs()
    ensures written { (d e : Content) (host at : ℕ) (place : Place) (bytes : List ℕ) (answer : Result (Unit {0}) DiskAnswer) → WriteAt d host place at bytes answer e → LeavesOnlyOf host d e }
    ensures created { (d e : Content) (host size : ℕ) (place : Place) (answer : Result (Unit {0}) DiskAnswer) → Creates d host place size answer e → LeavesOnlyOf host d e }
    ensures synced { (d e : Content) (host : ℕ) (place : Place) (answer : Result (Unit {0}) DiskAnswer) → Syncs d host place answer e → LeavesOnlyOld d e }
    ensures grown { (d e : Content) (size : ℕ) (place : Place) (answer : Result (Unit {0}) DiskAnswer) → Grows d place size answer e → LeavesOnlyOld d e }
    ensures exchanged { (d e : Content) (host sector : ℕ) (place : Place) (expect next : List ℕ) (answer : Result Exchanged DiskAnswer) → Exchanges d host place sector expect next answer e → LeavesOnlyOld d e }
    ensures renamed { (d e : Content) (from : Place) (to : Name) (answer : Result (Unit {0}) DiskAnswer) → Renames d from to answer e → LeavesOnlyOld d e }
    ensures removed { (d e : Content) (place : Place) (answer : Result (Unit {0}) DiskAnswer) → Removes d place answer e → LeavesOnlyOld d e }
{}

/// A law: so it is behind a call that makes, removes or moves a folder.
pub fn folders_have_none()
    ensures made { (d e : Content) (dir : Dir) (answer : Result (Unit {0}) DiskAnswer) → MakesDir d dir answer e → LeavesOnlyOld d e }
    ensures removed { (d e : Content) (dir : Dir) (answer : Result (Unit {0}) DiskAnswer) → RemovesDir d dir answer e → LeavesOnlyOld d e }
    ensures moved { (d e : Content) (from to : Dir) (answer : Result (Unit {0}) DiskAnswer) → MovesDir d from to answer e → LeavesOnlyOld d e }
{}

/// A law: and behind a call that reads or lists.
pub fn reads_leave_all()
    ensures read { (d e : Content) (host at : ℕ) (place : Place) (before after : List ℕ) (answer : Result ℕ DiskAnswer) → ReadAt d host place at before after answer e → LeavesOnlyOld d e }
    ensures measured { (d e : Content) (place : Place) (answer : Result ℕ DiskAnswer) → HasLength d place answer e → LeavesOnlyOld d e }
    ensures named { (d e : Content) (dir : Dir) (after : Option Name) (answer : Result (Option Name) DiskAnswer) → NextName d dir after answer e → LeavesOnlyOld d e }
    ensures listed { (d e : Content) (dir : Dir) (after : Option Dir) (answer : Result (Option Dir) DiskAnswer) → NextDir d dir after answer e → LeavesOnlyOld d e }
{}

/// A law: a host that went down has nothing unsynced, and no other host has more than before.
pub fn crashes_leave_the_others()
    ensures { (d e : Content) (host : ℕ) (those : ℕ → Bool) → DownLeaves d host e → HasOnlyOf those d → HasOnlyOf (but those host) e }
{}

/// A law: and each file in which it had nothing unsynced is as it was, or still isn't there.
pub fn crashes_leave_other_files()
    ensures itself { (f g : File) (host : ℕ) → IsSettledFor host f → IsDownFile host f g → g ≡ f }
    ensures there { (d e : Content) (host : ℕ) (place : Place) → DownLeaves d host e → IsSettledAt host (d.file place) → e.file place ≡ d.file place }
{}

/// A law: each step of a replacement of a file's text leaves only what was unsynced before, and its host's own.
pub fn replacements_leave_only_theirs()
    ensures { (r : Replace) (host faults : ℕ) (text : List ℕ) (turn : Turn Replace (Unit {0}) (Unit {0})) (d e : Content) → CallOf (stage_of r) r host faults text turn d e → LeavesOnlyOf host d e }
{}
