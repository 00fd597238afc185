// Laws of heads that are written: contracts of functions that do nothing.
ghost use Rattle.std.specs.Prelude.{◌≡◌, ◌≢◌, ℕ, ◌<◌, ◌++◌, List, length, take, true, Ok, Some};
ghost use Rattle.shared_disk.specs.Content.{Content, File};
ghost use Rattle.shared_disk.specs.Crash.{DownLeaves};
ghost use Rattle.qcow_format.specs.declared.header.Header.{Header};
ghost use Rattle.qcow_format.specs.Header.{has_name, head_size, header_of};
ghost use Rattle.qcow_format.specs.Written.{IsHeader, written};
ghost use Rattle.qcow_layer.specs.Opening.{place_kept};
ghost use Rattle.qcow_layer.specs.declared.layer.Layer.{Layer};
ghost use Rattle.layer_heading.specs.Clearing.{KnowsClearing};
ghost use Rattle.layer_heading.specs.Heads.{HasSameShape};
ghost use Rattle.layer_heading.specs.Rebasing.{KnowsFile};
ghost use Rattle.layer_heading.specs.declared.clearing.Clearing.{Clearing};
ghost use Rattle.layer_heading.specs.declared.rebasing.Rebasing.{Rebasing};

/// The first sector of a head may be written with another header, which differs from the one that is read there in the
/// backing file, the size and the features that nobody has to know. Extensions and all that stands behind the first sector
/// stay, and only the last backing format becomes the new one.
pub fn headers_may_be_written()
    ensures { (h next : Header) (first rest : List ℕ) → length first ≡ 512 → header_of (first ++ rest) ≡ Ok h → HasSameShape h next → IsHeader next
        → has_name (take (head_size next.cluster_bits) (written next first ++ rest)) next ≡ true → header_of (written next first ++ rest) ≡ Ok next }
{}

/// What a rebasing or a clearing knows is of a file that stays as it is when another host goes down.
pub fn headings_survive_others()
    ensures rebasing { (r : Rebasing) (host other : ℕ) (l : Layer) (f : File) (d e : Content) → host ≢ other → DownLeaves d other e → d.file (place_kept l) ≡ Some f → KnowsFile r l host f
        → e.file (place_kept l) ≡ Some f }
    ensures clearing { (c : Clearing) (host other : ℕ) (l : Layer) (f : File) (d e : Content) → host ≢ other → DownLeaves d other e → d.file (place_kept l) ≡ Some f → KnowsClearing l host c f
        → e.file (place_kept l) ≡ Some f }
{}
