// Laws of walks: contracts of functions that do nothing.
ghost use Rattle.std.specs.Prelude.{◌≡◌, ◌<◌, ℕ, Some};
ghost use Rattle.qcow_format.specs.declared.header.Header.{Header};
ghost use Rattle.image_model.specs.Layer.{Tables};
ghost use Rattle.image_model.specs.Soundness.{names};
ghost use Rattle.layer_walk.specs.Known.{WalkKnows};
ghost use Rattle.layer_walk.specs.Left.{Antitone, Fits, IsInside, positions_from};
ghost use Rattle.layer_walk.specs.Steps.{IsStop, named_from};
ghost use Rattle.layer_walk.specs.declared.walk.Walk.{Walk};

/// The number of sectors that a walk wants is that of the places which the header, the refcount table and the L1 table name,
/// below the first position that has a fault by itself or names a place again. There is such a position, or all are behind
/// each other without one; no two below it name one place.
pub fn walks_fit()
    ensures fits { (t : Tables) (capacity stop : ℕ) (walk : Walk) → IsStop t capacity stop → WalkKnows t capacity walk → Fits t.header (named_from t capacity stop) walk }
    ensures stops { (t : Tables) (capacity : ℕ) → (stop : ℕ) × IsStop t capacity stop }
    ensures fewer { (t : Tables) (capacity stop : ℕ) → Antitone (named_from t capacity stop) }
    ensures differ { (t : Tables) (capacity stop a b place : ℕ) → IsStop t capacity stop → a < b → b < stop → names t capacity a ≡ Some place → names t capacity b ≡ Some place → ⊥ }
{}

/// Whatever the sectors say, a walk looks behind entries that are in their tables, and so goes by the count that has each
/// position.
pub fn walks_inside_fit()
    ensures fits { (h : Header) (walk : Walk) → IsInside h walk → Fits h (positions_from h) walk }
    ensures fewer { (h : Header) → Antitone (positions_from h) }
{}
