// How far the preparing of a write is.
ghost use Rattle.std.specs.Prelude.{◌≤◌};
ghost use Rattle.write_planning.specs.Plan.{wanted_of};
ghost use Rattle.write_preparing.specs.Taking.{TakesWanted};

use crate::placed::Placed;
use layer_heading::Clearing;
use layer_placing::Placing;
use part_survey::Survey;
use place_writing::PlaceWriting;
use write_planning::WritePlan;

/// A plan that wants clusters.
#[derive(Clone, Copy, Debug)]
pub(crate) struct Wanting {
    pub(crate) plan: WritePlan,
    pub(crate) ghost some: { 1 ≤ wanted_of plan },
}

/// The taking of the clusters that a plan wants.
#[derive(Drop)]
pub(crate) struct Taking {
    pub(crate) plan: WritePlan,
    pub(crate) work: Placing,
    pub(crate) ghost some: { 1 ≤ wanted_of plan },
    pub(crate) ghost many: { TakesWanted plan work },
}

/// How far it is.
#[derive(Drop)]
pub(crate) enum Stage {
    /// The part's clusters are looked up.
    Surveying(Survey),
    /// All were looked up, and some are wanted: room is asked for.
    Asking(Wanting),
    /// The features that a writer clears are cleared.
    Clearing(WritePlan, Clearing),
    /// Clusters are taken.
    Placing(Taking),
    /// The part is written over data.
    InPlace(Placed, PlaceWriting),
}
