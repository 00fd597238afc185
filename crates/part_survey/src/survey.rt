// Looking a part's clusters up, one after the other.
ghost use Rattle.std.specs.Prelude.{◌≡◌, ◌+◌, ◌*◌, ◌<◌, ◌≤◌, None};
ghost use Rattle.shared_disk.specs.Calls.{Told};
ghost use Rattle.shared_disk.specs.Step.{EndsOnlyBy, IsDiskRefusal, NearsEnd, StepCounts};
ghost use Rattle.write_planning.specs.Plan.{looked_up, span_of};
ghost use Rattle.write_planning.specs.Span.{count_of, first_of};

use qcow_layer::{Layer, Looking};
use sd_names::{HostId, Turn};
use shared_disk::SharedDisk;
use write_planning::{Span, WritePlan};

/// The looking up of the clusters that a part meets, in steps of at most one call of the disk.
#[derive(Clone, Copy, Debug)]
pub struct Survey {
    plan: WritePlan,
    looking: Looking,
    ghost more: { looked_up plan < count_of (span_of plan) },
}

impl Survey {
    ghost use Rattle.part_survey.specs.Survey.{GoesOnWith, IsAfter, IsAllOf, StartsAt, Surveys, cluster_of, plan_of, survey_left, table_of};

    /// The looking up of the clusters of a part.
    pub fn begin(span: Span) -> Survey
        ensures span { span_of (plan_of result) ≡ span }
        ensures none { looked_up (plan_of result) ≡ 0 }
        ensures cluster { cluster_of result ≡ first_of span }
        ensures table { table_of result ≡ None }
        ensures left { survey_left result ≡ 2 * count_of span }
    {
        let _count = span.count();
        Survey::of(WritePlan::begin(span))
    }

    // The next cluster that isn't looked up.
    fn of(plan: WritePlan) -> Survey
        requires { looked_up plan < count_of (span_of plan) }
        ensures plan { plan_of result ≡ plan }
        ensures cluster { cluster_of result ≡ first_of (span_of plan) + looked_up plan }
        ensures table { table_of result ≡ None }
    {
        let _count = plan.span().count();
        let looking = Looking::begin(plan.span().first() + plan.looked_up() as u64);
        Survey { plan, looking }
    }

    // The same cluster, further on.
    fn at(self, looking: Looking) -> Survey
        ensures plan { plan_of result ≡ plan_of self }
        ensures looking { GoesOnWith looking result }
    {
        Survey {
            plan: self.plan,
            looking,
        }
    }

    // The next cluster, or the plan where all were looked up.
    fn after(plan: WritePlan) -> Turn<Survey, WritePlan, ()>
        requires { looked_up plan ≤ count_of (span_of plan) }
        ensures { IsAfter plan result }
    {
        if plan.looked_up() < plan.span().count() {
            return Turn::More(Survey::of(plan));
        }
        Turn::Done(plan)
    }

    /// Makes at most one call of the disk. The layer is the same in each step.
    pub fn step<D: SharedDisk>(
        self,
        host: HostId,
        layer: &mut Layer,
        disk: &mut D,
    ) -> Turn<Survey, WritePlan, ()>
        ensures counts { StepCounts (D.faults disk.old) (D.faults disk.new) (D.calls disk.old) (D.calls disk.new) result }
        ensures refusals { EndsOnlyBy IsDiskRefusal result }
        ensures layer { layer.new ≡ layer.old }
        ensures falls { NearsEnd (StartsAt (span_of (plan_of self))) survey_left (survey_left self) result }
        ensures all { IsAllOf (span_of (plan_of self)) result }
        ensures content { Told (D.content disk.old) (D.content disk.new) (Surveys self layer.old host result) }
    {
        match self.looking.step(host, layer, disk) {
            Turn::More(looking) => Turn::More(self.at(looking)),
            Turn::Done(looked) => Survey::after(self.plan.with(looked)),
            Turn::Ended((), refusal) => Turn::Ended((), refusal),
        }
    }
}
