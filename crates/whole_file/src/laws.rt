// Laws of texts in files: contracts of functions that do nothing.
ghost use Rattle.std.specs.Prelude.{◌≡◌, ℕ, ◌≤◌, List, length};
ghost use Rattle.sd_names.specs.declared.place.Place.{Place};
ghost use Rattle.shared_disk.specs.Content.{Content, File};
ghost use Rattle.shared_disk.specs.Crash.{IsOutcome};
ghost use Rattle.whole_file.specs.Replace.{Knows, target_of, volatile_of};
ghost use Rattle.whole_file.specs.Text.{HasNoZero, HasText, IsTextFile, text_of};
ghost use Rattle.whole_file.specs.declared.replace.Replace.{Replace};

/// A text that a folder has at a place, on the medium, is there on each outcome.
pub fn text_survives_crashes()
    ensures { (d o : Content) (place : Place) (text : List ℕ) → HasText d place text → IsOutcome d o → HasText o place text }
{}

/// A file that has a text without zero bytes reads as that text.
pub fn text_is_read_again()
    ensures { (host : ℕ) (text : List ℕ) (f : File) → HasNoZero text → IsTextFile text f → text_of host f ≡ text }
{}

/// What a replacement knows stays true under each change that leaves its folder and the volatile file alone.
pub fn knowledge_survives_others()
    ensures { (r : Replace) (host : ℕ) (text : List ℕ) (d e : Content) → e.dir (target_of r).dir ≡ d.dir (target_of r).dir → e.file (volatile_of r) ≡ d.file (volatile_of r) → Knows r host text d → Knows r host text e }
{}
