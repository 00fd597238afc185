// Laws of a raw volume's steps: contracts of functions that do nothing.
ghost use Rattle.std.specs.Prelude.{◌≡◌, ◌≢◌, ◌⊎◌, ℕ, ◌+◌, ◌/◌, ◌<◌, Bool, List, None, Option, Some};
ghost use Rattle.sd_names.specs.declared.turn.Turn.{Turn};
ghost use Rattle.sd_names.specs.declared.turn.Turn.TheVariants.{Done, More};
ghost use Rattle.shared_disk.specs.Calls.{sectors_in, synced, wrote};
ghost use Rattle.shared_disk.specs.Content.{Content, File, own_of};
ghost use Rattle.shared_disk.specs.Crash.{IsDownFile, IsFromBefore, IsLaidOver, IsOutcome};
ghost use Rattle.raw_layer.specs.Part.{HasPart, IsAloneIn, SeesPart};
ghost use Rattle.raw_layer.specs.Raw.{ReadSteps, WriteSteps, read_place, stage_of, write_from, write_place};
ghost use Rattle.raw_layer.specs.declared.read.RawRead.{RawRead};
ghost use Rattle.raw_layer.specs.declared.write.RawWrite.{RawWrite};
ghost use Rattle.raw_layer.specs.declared.write.Stage.TheVariants.{Written};

/// What crashes may leave after a step they could leave before it, but for some sectors of the part, which may lie over
/// the volume's file, and nothing else. A read leaves no more than they could leave before.
pub fn outcomes_after_a_step()
    ensures read { (r : RawRead) (host faults : ℕ) (part : List ℕ) (turn : Turn RawRead (Unit {0}) (Unit {0})) (d e o : Content) → ReadSteps r host faults part turn d e → IsOutcome e o → IsOutcome d o }
    ensures write { (w : RawWrite) (host faults : ℕ) (part : List ℕ) (turn : Turn RawWrite (Unit {0}) (Unit {0})) (d e o : Content) → WriteSteps (stage_of w) w host faults part turn d e → IsOutcome e o → IsOutcome d o ⊎ ((did : ℕ → Bool) × IsFromBefore d (write_place w) (IsLaidOver did (write_from w / 512) part) o) }
{}

/// Once the part is written the host sees it in the file. It sees it still when another host writes there, and when
/// one that has no writes of the part's sectors syncs the file or goes down.
pub fn a_written_part_is_seen()
    ensures set { (w next : RawWrite) (host faults : ℕ) (part : List ℕ) (d e : Content) → WriteSteps (stage_of w) w host faults part (More next) d e → stage_of next ≡ Written → (f : File) × (e.file (write_place w) ≡ Some f) × SeesPart host (write_from w / 512) part f }
    ensures write { (did : ℕ → Bool) (host other at from : ℕ) (part bytes : List ℕ) (f : File) → host ≢ other → SeesPart host at part f → SeesPart host at part (wrote did other from bytes f) }
    ensures sync { (host other at : ℕ) (part : List ℕ) (f : File) → host ≢ other → ((i : ℕ) → i < sectors_in part → own_of other (at + i) f.loose ≡ None) → SeesPart host at part f → SeesPart host at part (synced other f) }
    ensures down { (host other at : ℕ) (part : List ℕ) (f g : File) → host ≢ other → ((i : ℕ) → i < sectors_in part → own_of other (at + i) f.loose ≡ None) → f.fresh ≢ Some other → IsDownFile other f g → SeesPart host at part f → SeesPart host at part g }
{}

/// A write is done only by a sync. Where the host saw the part before it, and no other host was writing the part's
/// sectors, each outcome of the folder has the part.
pub fn a_done_write_is_on_each_outcome()
    ensures { (w : RawWrite) (host faults : ℕ) (part : List ℕ) (d e o : Content) (f : File) → d.file (write_place w) ≡ Some f → SeesPart host (write_from w / 512) part f → IsAloneIn host (write_from w / 512) (sectors_in part) f → WriteSteps (stage_of w) w host faults part (Done tt) d e → IsOutcome e o → (g : File) × (o.file (write_place w) ≡ Some g) × HasPart (write_from w / 512) part g }
{}
