// A raising of a capacity that is within the bound.
ghost use Rattle.std.specs.Prelude.{◌≡◌, ◌^◌, ◌≤◌};

use qcow_layer::Looking;

/// What a range of zeros is for.
#[derive(Clone, Copy, Debug)]
pub enum Part {
    /// The rest of a cluster of data in which the old capacity ends.
    Rest,
    /// The entries of the L1 table that come into use.
    Tables,
}

/// Bytes of the file that get zeros: from `at` up to `end`, in bytes.
#[derive(Clone, Copy, Debug)]
pub struct Range {
    pub(crate) at: u64,
    pub(crate) end: u64,
    pub(crate) part: Part,
}

/// How far a raising is.
#[derive(Clone, Copy, Debug)]
pub enum Stage {
    /// The cluster in which the old capacity ends is looked up.
    Seeking(Looking),
    /// These bytes get zeros next. Where there are none left, those before them are synced.
    Zeroing(Range),
    /// The first sector of these bytes, with zeros from the first of them on.
    Edge(Range, [u8; 512]),
    /// All zeros are on the medium.
    Ready,
    /// The first sector of the file, with the new size and length.
    Laid([u8; 512]),
    /// It is written, and not yet synced.
    Headed,
}

/// The raising of a layer's capacity, which is at most 1 TiB.
#[derive(Clone, Copy, Debug)]
pub struct Raising {
    pub(crate) capacity: u64,
    pub(crate) stage: Stage,
    ghost few: { capacity ≤ 2 ^ 40 },
}

impl Raising {
    ghost use Rattle.layer_sizing.specs.Stages.{asked_of, at_stage, stage_of};

    /// The raising to this capacity, in bytes, at this stage.
    pub(crate) fn new(capacity: u64, stage: Stage) -> Raising
        requires { capacity ≤ 2 ^ 40 }
        ensures capacity { asked_of result ≡ capacity }
        ensures stage { stage_of result ≡ stage }
    {
        Raising { capacity, stage }
    }

    /// The raising in another stage.
    pub(crate) fn at(self, stage: Stage) -> Raising
        ensures { result ≡ at_stage self stage }
    {
        Raising {
            capacity: self.capacity,
            stage,
        }
    }
}
