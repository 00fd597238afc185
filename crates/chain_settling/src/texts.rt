// The texts of all volumes are rewritten, one after the other: first their parents, then their VOLTYPEs.
ghost use Rattle.std.specs.Prelude.{◌≡◌, ◌<◌, ℕ, length, option_copied};
ghost use Rattle.shared_disk.specs.Calls.{Told};
ghost use Rattle.shared_disk.specs.Content.{Content};
ghost use Rattle.shared_disk.specs.Step.{EndsOnlyBy, IsDiskRefusal, NearsEnd, StepCounts, TurnFaults};
ghost use Rattle.sd_names.specs.declared.id.Id.{Id as AnyId};
ghost use Rattle.chain_records.specs.Records.{files_of, ids_of, records_in};
ghost use Rattle.chain_records.specs.Rewriting.{changed};
ghost use Rattle.volume_chain.specs.Chain.{records_kept};
ghost use Rattle.volume_chain.specs.Parts.{with_records};
ghost use Rattle.volume_texts.specs.Write.{IsSameWrite, write_left};
ghost use Rattle.chain_settling.specs.Begun.{IsBegunText, WritesRecord};
ghost use Rattle.chain_settling.specs.Fit.{AreValid, IsFit, IsOfRecord, IsSameChain, KeepsFit, chain_in};
ghost use Rattle.chain_settling.specs.Left.{FallsIn};
ghost use Rattle.chain_settling.specs.Steps.{SettlesIn};
ghost use Rattle.chain_settling.specs.Work.{IsChange, IsIdAt, IsTextWork, changed_to, record_at};
ghost use Rattle.chain_settling.specs.declared.stages.Stage.TheVariants as stages;

use crate::stages::{Part, Stage};
use chain_records::VolumeRecords;
use sd_names::{HostId, Id, Turn, VolType};
use shared_disk::SharedDisk;
use volume_chain::Chain;
use volume_meta::VolumeRecord;
use volume_texts::TextWrite;

/// What a record gets.
#[derive(Clone, Copy, Debug)]
pub(crate) enum Change {
    /// This parent.
    Parent(Id),
    /// This VOLTYPE.
    Voltype(VolType),
}

/// What has to be done to the text of the volume at a place of the list.
#[derive(Clone, Copy, Debug)]
pub(crate) enum TextWork {
    /// The list has ended.
    End,
    /// The text of this volume stays.
    Stays(Id),
    /// It is rewritten with a change.
    Changes(Id, Change),
}

/// The next volume of the list: the rewriting of its text begins, where it has to change. Behind the last one VOLTYPEs
/// follow, and behind the last of those the chain is settled.
pub(crate) fn step_texts(chain: Chain, part: Part, at: usize) -> Turn<Stage, Chain, ()>
    requires { IsFit (stages.Texts chain part at) }
    ensures cause { (before after : ℕ) → after ≡ before → TurnFaults before after result }
    ensures refusals { EndsOnlyBy IsDiskRefusal result }
    ensures fit { KeepsFit (stages.Texts chain part at) result }
    ensures falls { FallsIn (stages.Texts chain part at) result }
    ensures content { (host faults : ℕ) (d : Content) → SettlesIn (stages.Texts chain part at) host faults result d d }
{
    match text_work(&chain, part, at) {
        TextWork::End => match part {
            Part::Parents => Turn::More(Stage::Texts(chain, Part::Types, 0)),
            Part::Types => Turn::Done(chain),
        },
        TextWork::Stays(_) => Turn::More(Stage::Texts(chain, part, at + 1)),
        TextWork::Changes(id, change) => Turn::More(begin_text(chain, part, at, id, change)),
    }
}

// What has to be done to the text of the volume at a place of the list.
fn text_work(chain: &Chain, part: Part, at: usize) -> TextWork
    ensures work { IsTextWork chain.now part at result }
{
    let Some(volume) = chain.records().as_slice().get(at) else {
        return TextWork::End;
    };
    match change_of(chain.records(), part, &volume.id) {
        Some(change) => TextWork::Changes(volume.id, change),
        None => TextWork::Stays(volume.id),
    }
}

// The change of a volume's record.
fn change_of(records: &VolumeRecords, part: Part, id: &Id) -> Option<Change>
    ensures { IsChange part (records_in records.now) id.now result }
{
    match part {
        Part::Parents => match records.parent_to_write(id) {
            Some(up) => Some(Change::Parent(up)),
            None => None,
        },
        Part::Types => type_change(records, id),
    }
}

// The VOLTYPE that a volume's record has to get, where it has another one.
fn type_change(records: &VolumeRecords, id: &Id) -> Option<Change>
    ensures { IsChange Part.Types (records_in records.now) id.now result }
{
    let wanted = records.voltype_to_have(id)?;
    let has = records.get(id)?.voltype;
    if has == wanted {
        None
    } else {
        Some(Change::Voltype(wanted))
    }
}

// The rewriting of a volume's text begins: its record is changed as it is kept.
fn begin_text(chain: Chain, part: Part, at: usize, id: Id, change: Change) -> Stage
    requires fit { IsFit (stages.Texts chain part at) }
    requires place { IsIdAt chain at id }
    requires inside { at < length (records_kept chain) }
    ensures fit { IsFit result }
    ensures same { IsSameChain chain (chain_in result) }
    ensures begun { IsBegunText chain part at id change result }
{
    let mut chain = chain;
    apply(&mut chain, &id, change);
    match chain.records().get(&id) {
        Some(says) => {
            let write = TextWrite::begin(chain.folder(), id, chain.version(), says);
            Stage::Writing(chain, part, at, write)
        }
        None => Stage::Texts(chain, part, at + 1),
    }
}

// A volume's record gets a change.
fn apply(chain: &mut Chain, id: &Id, change: Change)
    requires { AreValid chain.old }
    ensures rest { chain.new ≡ with_records chain.old (records_kept chain.new) }
    ensures ids { ids_of (records_kept chain.new) ≡ ids_of (records_kept chain.old) }
    ensures files { files_of (records_kept chain.new) ≡ files_of (records_kept chain.old) }
    ensures records { (u : AnyId) → records_in (records_kept chain.new) u ≡ changed id.now (changed_to change) (records_in (records_kept chain.old)) u }
    ensures valid { AreValid chain.new }
{
    match change {
        Change::Parent(up) => {
            up.has_sixteen_bytes();
            chain.write_parent(id, up)
        }
        Change::Voltype(voltype) => chain.write_voltype(id, voltype),
    }
}

/// A step of the rewriting of a text.
pub(crate) fn step_writing<D: SharedDisk>(
    chain: Chain,
    part: Part,
    at: usize,
    write: TextWrite,
    host: HostId,
    disk: &mut D,
) -> Turn<Stage, Chain, ()>
    requires { IsFit (stages.Writing chain part at write) }
    ensures counts { StepCounts (D.faults disk.old) (D.faults disk.new) (D.calls disk.old) (D.calls disk.new) result }
    ensures refusals { EndsOnlyBy IsDiskRefusal result }
    ensures fit { KeepsFit (stages.Writing chain part at write) result }
    ensures falls { FallsIn (stages.Writing chain part at write) result }
    ensures content { Told (D.content disk.old) (D.content disk.new) (SettlesIn (stages.Writing chain part at write) host (D.faults disk.new) result) }
{
    match write_text(&chain, at, write, host, disk) {
        Turn::More(next) => Turn::More(Stage::Writing(chain, part, at, next)),
        Turn::Done(()) => Turn::More(Stage::Texts(chain, part, at + 1)),
        Turn::Ended(_, refusal) => Turn::Ended((), refusal),
    }
}

// The same of the text alone.
fn write_text<D: SharedDisk>(
    chain: &Chain,
    at: usize,
    write: TextWrite,
    host: HostId,
    disk: &mut D,
) -> Turn<TextWrite, (), ()>
    requires valid { AreValid chain.now }
    requires text { IsOfRecord chain.now at write }
    ensures counts { StepCounts (D.faults disk.old) (D.faults disk.new) (D.calls disk.old) (D.calls disk.new) result }
    ensures refusals { EndsOnlyBy IsDiskRefusal result }
    ensures keeps { NearsEnd (IsSameWrite write) write_left (write_left write) result }
    ensures content { Told (D.content disk.old) (D.content disk.new) (WritesRecord chain.now at write host (D.faults disk.new) result) }
{
    match record_at(chain, at) {
        Some(says) => write.step(host, disk, says),
        None => Turn::Done(()),
    }
}

// The record of the volume at a place of the list.
fn record_at(chain: &Chain, at: usize) -> Option<&VolumeRecord>
    ensures { option_copied result ≡ record_at chain.now at }
{
    let volume = chain.records().as_slice().get(at)?;
    chain.records().get(&volume.id)
}
