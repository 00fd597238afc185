// What was written is synced, then the new clusters get their entries, sector by sector.
ghost use Rattle.std.specs.Prelude.{◌≡◌, ◌*◌, ◌^◌, ◌-◌, ◌<◌, min};
ghost use Rattle.shared_disk.specs.Calls.{Told};
ghost use Rattle.shared_disk.specs.Step.{EndsOnlyBy, IsDiskRefusal, StepCounts};
ghost use Rattle.write_planning.specs.Linked.{sectors_of, table_with};
ghost use Rattle.write_planning.specs.Plan.{span_of};
ghost use Rattle.write_linking.specs.Linking.{LinksAt, PassesOn, StageFalls, given_table};
ghost use Rattle.write_linking.specs.declared.stage.Stage.TheVariants.{Links, Syncing};
ghost use Rattle.write_preparing.specs.Placed.{plan_of};

use crate::stage::Stage;
use layer_linking::Linking;
use qcow_layer::Layer;
use sd_names::{HostId, Turn};
use shared_disk::{SharedDisk, refusal_for};
use write_preparing::Placed;

/// All that was written is put onto the medium, with the counts of the clusters that were taken.
pub(crate) fn sync<D: SharedDisk>(
    placed: Placed,
    host: HostId,
    layer: &Layer,
    disk: &mut D,
) -> Turn<Stage, (), ()>
    ensures counts { StepCounts (D.faults disk.old) (D.faults disk.new) (D.calls disk.old) (D.calls disk.new) result }
    ensures refusals { EndsOnlyBy IsDiskRefusal result }
    ensures falls { StageFalls layer.now (Syncing placed) result }
    ensures content { Told (D.content disk.old) (D.content disk.new) (LinksAt (Syncing placed) layer.now host (D.faults disk.new) result) }
{
    match disk.sync(host, layer.place()) {
        Ok(()) => Turn::More(Stage::Next(placed, 0)),
        Err(answer) => Turn::Ended((), refusal_for(answer, disk)),
    }
}

/// The next sector of entries, where one of its clusters gets its entry. Behind the last one the write is done.
pub(crate) fn next_linking(placed: Placed, sector: usize) -> Turn<Stage, (), ()>
    ensures { PassesOn placed sector result }
{
    if sector >= placed.plan().span().sectors() {
        return Turn::Done(());
    }
    match placed.plan().links(sector, placed.clusters()) {
        None => Turn::More(Stage::Next(placed, sector + 1)),
        Some(links) => {
            let linking = Linking::begin_all(links, table_place(&placed, sector));
            Turn::More(Stage::Links(placed, sector + 1, linking))
        }
    }
}

// The place of the L2 table that is made with the entries of a sector, or 0 where it is there.
fn table_place(placed: &Placed, sector: usize) -> u64
    requires { sector < sectors_of (span_of (plan_of placed.now)) }
    ensures { result ≡ given_table placed.now (table_with (plan_of placed.now) sector) }
{
    match placed.plan().table(sector) {
        None => 0,
        Some(index) => {
            let cluster = placed.clusters().get(index as usize);
            cluster.saturating_mul(placed.plan().span().width())
        }
    }
}

/// A step of the making of a sector's entries.
pub(crate) fn link<D: SharedDisk>(
    placed: Placed,
    next: usize,
    work: Linking,
    host: HostId,
    layer: &mut Layer,
    disk: &mut D,
) -> Turn<Stage, (), ()>
    ensures counts { StepCounts (D.faults disk.old) (D.faults disk.new) (D.calls disk.old) (D.calls disk.new) result }
    ensures refusals { EndsOnlyBy IsDiskRefusal result }
    ensures layer { layer.new ≡ layer.old }
    ensures falls { StageFalls layer.old (Links placed next work) result }
    ensures content { Told (D.content disk.old) (D.content disk.new) (LinksAt (Links placed next work) layer.old host (D.faults disk.new) result) }
{
    match work.step(host, layer, disk) {
        Turn::More(linking) => Turn::More(Stage::Links(placed, next, linking)),
        Turn::Done(()) => Turn::More(Stage::Next(placed, next)),
        Turn::Ended((), refusal) => Turn::Ended((), refusal),
    }
}
