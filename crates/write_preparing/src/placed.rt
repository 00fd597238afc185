// What is planned, with the clusters that were taken for it.
ghost use Rattle.std.specs.Prelude.{◌≡◌, length};
ghost use Rattle.layer_placing.specs.Chosen.{listed};
ghost use Rattle.write_planning.specs.Plan.{wanted_of};

use layer_placing::Clusters;
use write_planning::WritePlan;

/// What a write of a part does with each cluster that the part meets, and the clusters of the file that were taken for it: as
/// many as the plan wants.
#[derive(Drop)]
pub struct Placed {
    plan: WritePlan,
    clusters: Clusters,
    ghost many: { length (listed clusters) ≡ wanted_of plan },
}

impl Placed {
    ghost use Rattle.write_preparing.specs.Placed.{clusters_of, plan_of};

    /// A plan with its clusters.
    pub(crate) fn new(plan: WritePlan, clusters: Clusters) -> Placed
        requires { length (listed clusters) ≡ wanted_of plan }
        ensures plan { plan_of result ≡ plan }
        ensures clusters { clusters_of result ≡ listed clusters }
    {
        Placed { plan, clusters }
    }

    /// The plan.
    pub fn plan(&self) -> WritePlan
        ensures { result ≡ plan_of self.now }
    {
        self.plan
    }

    /// The clusters that were taken.
    pub fn clusters(&self) -> &Clusters
        ensures clusters { listed result.now ≡ clusters_of self.now }
        ensures many { length (listed result.now) ≡ wanted_of (plan_of self.now) }
    {
        &self.clusters
    }
}
