// Laws of sizing: contracts of functions that do nothing.
ghost use Rattle.std.specs.Prelude.{◌≡◌, ◌≢◌, ◌⊎◌, ℕ, ◌≤◌};
ghost use Rattle.shared_disk.specs.Content.{Content};
ghost use Rattle.shared_disk.specs.Crash.{DownLeaves};
ghost use Rattle.qcow_layer.specs.Opening.{place_kept};
ghost use Rattle.qcow_layer.specs.declared.layer.Layer.{Layer};
ghost use Rattle.layer_sizing.specs.Sizing.{KnowsSizingOn};
ghost use Rattle.layer_sizing.specs.declared.sizing.Sizing.{Sizing};

/// What a sizing knows stays true where others leave the file alone, and where they go down.
pub fn sizings_stay_known()
    ensures untouched { (s : Sizing) (layer : Layer) (host : ℕ) (d e : Content) → e.file (place_kept layer) ≡ d.file (place_kept layer) → KnowsSizingOn layer host s d → KnowsSizingOn layer host s e }
    ensures down { (s : Sizing) (layer : Layer) (host other : ℕ) (d e : Content) → host ≢ other → DownLeaves d other e → KnowsSizingOn layer host s d → KnowsSizingOn layer host s e }
{}
