// Asking for the counts of the clusters that the header names, where a fault stands there or in the refcount table.
ghost use Rattle.std.specs.Prelude.{◌+◌, ◌-◌, ◌*◌, ◌<◌, ◌≤◌};
ghost use Rattle.layer_walk.specs.Known.{HeadKnown, Keeps, Leads};
ghost use Rattle.layer_walk.specs.Positions.{head_count};
ghost use Rattle.layer_walk.specs.Left.{Below, StaysInside};

use crate::head::{head_clusters, head_item};
use crate::walk::{Ask, Passed, Then, Walk};
use crate::work::Work;
use sd_names::LayerFault;

/// The counts of the clusters that the header names, from one on, below an end. Where all are above 0, the fault is the
/// layer's first.
pub fn ask_head(work: Work, n: u64, end: u64, fault: LayerFault) -> Passed
    ensures keeps { Keeps work result }
    ensures inside { end ≤ head_count work.header → StaysInside work result }
    ensures falls { Below work (λ h tables. 1 + 2 * (end - n)) result }
    ensures next { Leads work (λ t capacity. HeadKnown t capacity n end fault) result }
{
    if n >= end || n >= head_clusters(&work.header) {
        return Passed::Fault(fault);
    }
    match head_item(&work.header, n).name {
        None => Passed::Fault(fault),
        Some(place) => Passed::More(Walk::Ask(
            work,
            Ask {
                place,
                block: None,
                then: Then::Head(n, end, fault),
            },
        )),
    }
}

/// The counts of those behind the one with index n, which has a count.
pub fn ask_next(work: Work, n: u64, end: u64, fault: LayerFault) -> Passed
    ensures keeps { Keeps work result }
    ensures inside { end ≤ head_count work.header → StaysInside work result }
    ensures falls { Below work (λ h tables. 1 + 2 * (end - (n + 1))) result }
    ensures next { Leads work (λ t capacity. HeadKnown t capacity (n + 1) end fault × (n < end)) result }
{
    ask_head(work, n.saturating_add(1), end, fault)
}
