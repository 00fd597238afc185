// Laws of images whose settling was cut: contracts of functions that do nothing.
ghost use Rattle.std.specs.Prelude.{◌≡◌, ℕ, List};
ghost use Rattle.sd_names.specs.declared.id.Id.{Id};
ghost use Rattle.sd_names.specs.declared.place.Dir.{Dir};
ghost use Rattle.shared_disk.specs.Content.{Content};
ghost use Rattle.shared_disk.specs.Crash.{IsOutcome};
ghost use Rattle.chain_gathering.specs.Knowing.{volumes_in};
ghost use Rattle.chain_model.specs.Chain.{path_of};
ghost use Rattle.chain_model.specs.Folder.{Volumes};
ghost use Rattle.chain_model.specs.Opening.{IsOpenable};
ghost use Rattle.chain_model.specs.Records.{Image, records_of};
ghost use Rattle.volume_chain.specs.Stages.{IsOpen};
ghost use Rattle.volume_chain.specs.declared.chain.Chain.{Chain};
ghost use Rattle.chain_settling.specs.Alike.{ReadsAlike};
ghost use Rattle.chain_settling.specs.Fit.{AreValid};
ghost use Rattle.chain_settling.specs.Knowing.{IsSettledImage};
ghost use Rattle.chain_settling.specs.Reopening.{OpensAlike};
ghost use Rattle.chain_settling.specs.Was.{folder_in, image_kept};

/// A law: an image that could be opened as its settling began can be opened on each outcome while it reads and opens alike, as
/// each step of a settling leaves it, a failed one too. Its reading volume is the same, and so is that one's path.
pub fn cut_settlings_open_again()
    ensures { (i : Image) (dir : Dir) (x : Volumes) (d o : Content) (v : Id) (vs : List Id) → ReadsAlike i dir (records_of i x) x d → OpensAlike i dir (records_of i x) x d → IsOutcome d o → IsOpenable i x v vs
        → (ws : List Id) × IsOpenable i (volumes_in dir o) v ws × (path_of (records_of i (volumes_in dir o)) v ws ≡ path_of (records_of i x) v vs) }
{}

/// A law: the chain of a settled image is open, as an opening hands one out, where the image could be opened as its settling
/// began.
pub fn settled_chains_are_open()
    ensures { (c : Chain) (host : ℕ) (x : Volumes) (d : Content) (v : Id) (vs : List Id) → IsSettledImage c host (records_of (image_kept c) x) x d → AreValid c → IsOpenable (image_kept c) x v vs → IsOpen c host d }
{}
