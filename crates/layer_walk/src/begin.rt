// The begin of the walk.
ghost use Rattle.layer_walk.specs.Known.{Keeps, Leads};
ghost use Rattle.layer_walk.specs.Left.{Below, StaysInside, begin_left};
ghost use Rattle.layer_walk.specs.Walking.{StartKnown};

use crate::ask::ask_head;
use crate::head::check_head;
use crate::rows::next_entries;
use crate::walk::Passed;
use crate::work::Work;

/// The walk over the tables of a layer whose header is known, where no cluster is named yet: the clusters that the header
/// names are looked at.
pub fn begin_walk(work: Work) -> Passed
    ensures keeps { Keeps work result }
    ensures inside { StaysInside work result }
    ensures falls { Below work (λ h tables. begin_left h tables) result }
    ensures next { Leads work (λ t capacity. StartKnown work.marks) result }
{
    let mut work = work;
    let header = work.header;
    match check_head(&header, &mut work.marks) {
        Some(stop) => ask_head(work, 0, stop.at, stop.fault),
        None => next_entries(work, 0),
    }
}
