// What comes behind the walk over the tables: the counts, then a second walk where a cluster was noted.
ghost use Rattle.std.specs.Prelude.{◌≡◌, ◌+◌, Some, None};
ghost use Rattle.layer_walk.specs.Known.{AllKnown, CountsKnown, EndKnown, Keeps, Leads, StopKnown, TablesKnown};
ghost use Rattle.layer_walk.specs.Left.{Below, StaysInside, behind_left, counts_left, l1_left};

use crate::counting::begin_counts;
use crate::head::check_head;
use crate::walk::{Passed, Walk};
use crate::work::Work;
use sd_names::LayerFault;

// The walk for the first name of a cluster with the count 0, where `place` is one that is named. What the header names is
// told without the disk, and the refcount blocks have counts.
fn find_first(work: Work, place: u64) -> Passed
    requires { work.marks.noted ≡ Some place }
    ensures keeps { Keeps work result }
    ensures inside { StaysInside work result }
    ensures falls { Below work (λ h tables. 1 + l1_left h tables 0) result }
    ensures next { Leads work (λ t capacity. TablesKnown t capacity work.marks 0) result }
{
    let mut work = work;
    let header = work.header;
    if let Some(stop) = check_head(&header, &mut work.marks) {
        return Passed::Fault(stop.fault);
    }
    if header.l1_size == 0 {
        return Passed::Fault(LayerFault::LowRefcount(place));
    }
    Passed::More(Walk::L1(work, 0))
}

/// All counts were looked at.
pub fn finish_counts(work: Work, fault: Option<LayerFault>) -> Passed
    ensures keeps { Keeps work result }
    ensures inside { StaysInside work result }
    ensures falls { Below work (λ h tables. 1 + l1_left h tables 0) result }
    ensures next { Leads work (λ t capacity. CountsKnown t capacity work.marks fault None) result }
{
    if let Some(place) = work.marks.noted {
        return find_first(work, place);
    }
    match fault {
        None => Passed::Sound(work),
        Some(fault) => Passed::Fault(fault),
    }
}

// The tables have this fault, or none: the counts come next.
fn start_counts(work: Work, fault: Option<LayerFault>) -> Passed
    ensures keeps { Keeps work result }
    ensures inside { StaysInside work result }
    ensures falls { Below work (λ h tables. counts_left h tables) result }
    ensures next { Leads work (λ t capacity. EndKnown t capacity work.marks fault) result }
{
    let mut work = work;
    let header = work.header;
    match begin_counts(&header, &mut work.marks) {
        None => finish_counts(work, fault),
        Some(count) => Passed::More(Walk::Counts(work, fault, count)),
    }
}

/// The walk over L1 and L2 tables came to a fault. In the second walk it is the layer's first.
pub fn stop_walk(work: Work, fault: LayerFault) -> Passed
    ensures keeps { Keeps work result }
    ensures inside { StaysInside work result }
    ensures falls { Below work (λ h tables. behind_left h tables work.marks.noted) result }
    ensures next { Leads work (λ t capacity. StopKnown t capacity work.marks fault) result }
{
    match work.marks.noted {
        None => start_counts(work, Some(fault)),
        Some(_) => Passed::Fault(fault),
    }
}

/// The walk over L1 and L2 tables came to their end. In the second walk it doesn't, unless the disk changes.
pub fn end_walk(work: Work) -> Passed
    ensures keeps { Keeps work result }
    ensures inside { StaysInside work result }
    ensures falls { Below work (λ h tables. behind_left h tables work.marks.noted) result }
    ensures next { Leads work (λ t capacity. AllKnown t capacity work.marks) result }
{
    match work.marks.noted {
        None => start_counts(work, None),
        Some(place) => Passed::Fault(LayerFault::LowRefcount(place)),
    }
}
