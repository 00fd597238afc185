// The zeros that come before the header.
ghost use Rattle.std.specs.Prelude.{◌≡◌, ◌%◌, ◌<◌, ◌≤◌, ◌≢◌};
ghost use Rattle.sd_names.specs.Turn.{MatchTurn};
ghost use Rattle.shared_disk.specs.Calls.{Told};
ghost use Rattle.shared_disk.specs.Step.{IsDiskRefusal, NearsEnd, StepCounts};
ghost use Rattle.qcow_layer.specs.Opening.{header_kept};
ghost use Rattle.layer_sizing.specs.Stages.{IsSameSizing, after_looking, after_zeros, asked_of, at_stage, moved, piece, sizing_left};
ghost use Rattle.layer_sizing.specs.Sizing.{LooksOn, ReadsEdge, SyncsZeros, WritesEdge, WritesZeros, Zeroes};
ghost use Rattle.layer_sizing.specs.declared.raising.Stage.TheVariants.{Edge, Seeking, Zeroing};
ghost use Rattle.layer_sizing.specs.declared.sizing.Sizing.TheVariants.{Going};

use crate::raising::{Part, Raising, Range, Stage};
use crate::sizes::{rest_range, tables_stage, zeros_from};
use crate::sizing::Sizing;
use qcow_format::Entry;
use qcow_layer::{Layer, Looking};
use sd_names::{HostId, Turn};
use shared_disk::{SharedDisk, refusal_for};

// What one call writes at the most, in bytes.
const LONGEST: usize = 65536;

// The stage behind the zeros of a part.
fn after_zeros(raising: Raising, part: Part, layer: &Layer) -> Stage
    ensures { result ≡ after_zeros (header_kept layer.now) (asked_of raising) part }
{
    match part {
        Part::Rest => tables_stage(layer.header(), raising.capacity),
        Part::Tables => Stage::Ready,
    }
}

// A range behind its first bytes, of which there are so many.
fn moved(range: Range, by: u64) -> Range
    ensures { result ≡ moved range by }
{
    Range {
        at: range.at.saturating_add(by),
        end: range.end,
        part: range.part,
    }
}

// How many zeros are written next, in bytes.
fn piece(range: Range) -> usize
    requires { range.at < range.end }
    ensures value { result ≡ piece range }
    ensures least { 512 ≤ result }
    ensures most { result ≤ 65536 }
    ensures whole { result % 512 ≡ 0 }
{
    let left = (range.end - range.at).min(LONGEST as u64) as usize;
    (left + 511) / 512 * 512
}

/// The next zeros of a range. One that begins within a sector begins with a read of it; one with none left is synced.
pub(crate) fn zero<D: SharedDisk>(
    raising: Raising,
    range: Range,
    host: HostId,
    layer: &Layer,
    disk: &mut D,
) -> Turn<Sizing, (), ()>
    ensures counts { StepCounts (D.faults disk.old) (D.faults disk.new) (D.calls disk.old) (D.calls disk.new) result }
    ensures next { MatchTurn result (λ _. Unit {0}) (λ _. ⊥) (λ _ refusal. IsDiskRefusal refusal) }
    ensures falls { NearsEnd (IsSameSizing (Going raising)) (sizing_left layer.now) (sizing_left layer.now (Going (at_stage raising (Zeroing range)))) result }
    ensures content { Told (D.content disk.old) (D.content disk.new) (Zeroes raising range layer.now host (D.faults disk.new) result) }
{
    if range.at >= range.end {
        return sync_zeros(raising, range, host, layer, disk);
    }
    if range.at % 512 != 0 {
        return read_edge(raising, range, host, layer, disk);
    }
    write_zeros(raising, range, host, layer, disk)
}

// The zeros are put onto the medium.
fn sync_zeros<D: SharedDisk>(
    raising: Raising,
    range: Range,
    host: HostId,
    layer: &Layer,
    disk: &mut D,
) -> Turn<Sizing, (), ()>
    requires { range.end ≤ range.at }
    ensures counts { StepCounts (D.faults disk.old) (D.faults disk.new) (D.calls disk.old) (D.calls disk.new) result }
    ensures next { MatchTurn result (λ _. Unit {0}) (λ _. ⊥) (λ _ refusal. IsDiskRefusal refusal) }
    ensures falls { NearsEnd (IsSameSizing (Going raising)) (sizing_left layer.now) (sizing_left layer.now (Going (at_stage raising (Zeroing range)))) result }
    ensures content { Told (D.content disk.old) (D.content disk.new) (SyncsZeros raising range layer.now host (D.faults disk.new) result) }
{
    match disk.sync(host, layer.place()) {
        Err(answer) => Turn::Ended((), refusal_for(answer, disk)),
        Ok(()) => {
            let next = after_zeros(raising, range.part, layer);
            Turn::More(Sizing::Going(raising.at(next)))
        }
    }
}

// The sector in which a range begins is read.
fn read_edge<D: SharedDisk>(
    raising: Raising,
    range: Range,
    host: HostId,
    layer: &Layer,
    disk: &mut D,
) -> Turn<Sizing, (), ()>
    requires some { range.at < range.end }
    requires within { range.at % 512 ≢ 0 }
    ensures counts { StepCounts (D.faults disk.old) (D.faults disk.new) (D.calls disk.old) (D.calls disk.new) result }
    ensures next { MatchTurn result (λ _. Unit {0}) (λ _. ⊥) (λ _ refusal. IsDiskRefusal refusal) }
    ensures falls { NearsEnd (IsSameSizing (Going raising)) (sizing_left layer.now) (sizing_left layer.now (Going (at_stage raising (Zeroing range)))) result }
    ensures content { Told (D.content disk.old) (D.content disk.new) (ReadsEdge raising range layer.now host (D.faults disk.new) result) }
{
    let mut sector = [0; 512];
    match disk.read_at(host, layer.place(), range.at / 512 * 512, &mut sector) {
        Err(answer) => Turn::Ended((), refusal_for(answer, disk)),
        Ok(_) => {
            let edge = zeros_from(sector, (range.at % 512) as usize);
            Turn::More(Sizing::Going(raising.at(Stage::Edge(range, edge))))
        }
    }
}

// Whole sectors of zeros are written, from the first of a range on.
fn write_zeros<D: SharedDisk>(
    raising: Raising,
    range: Range,
    host: HostId,
    layer: &Layer,
    disk: &mut D,
) -> Turn<Sizing, (), ()>
    requires some { range.at < range.end }
    requires whole { range.at % 512 ≡ 0 }
    ensures counts { StepCounts (D.faults disk.old) (D.faults disk.new) (D.calls disk.old) (D.calls disk.new) result }
    ensures next { MatchTurn result (λ _. Unit {0}) (λ _. ⊥) (λ _ refusal. IsDiskRefusal refusal) }
    ensures falls { NearsEnd (IsSameSizing (Going raising)) (sizing_left layer.now) (sizing_left layer.now (Going (at_stage raising (Zeroing range)))) result }
    ensures content { Told (D.content disk.old) (D.content disk.new) (WritesZeros raising range layer.now host (D.faults disk.new) result) }
{
    let size = piece(range);
    let zeros = [0; LONGEST];
    match disk.write_at(host, layer.place(), range.at, &zeros[..size]) {
        Err(answer) => Turn::Ended((), refusal_for(answer, disk)),
        Ok(()) => Turn::More(Sizing::Going(raising.at(Stage::Zeroing(moved(range, size as u64))))),
    }
}

/// The sector in which a range begins is written, with zeros from the range's first byte on.
pub(crate) fn write_edge<D: SharedDisk>(
    raising: Raising,
    range: Range,
    sector: &[u8; 512],
    host: HostId,
    layer: &Layer,
    disk: &mut D,
) -> Turn<Sizing, (), ()>
    ensures counts { StepCounts (D.faults disk.old) (D.faults disk.new) (D.calls disk.old) (D.calls disk.new) result }
    ensures next { MatchTurn result (λ _. Unit {0}) (λ _. ⊥) (λ _ refusal. IsDiskRefusal refusal) }
    ensures falls { NearsEnd (IsSameSizing (Going raising)) (sizing_left layer.now) (sizing_left layer.now (Going (at_stage raising (Edge range sector.now)))) result }
    ensures content { Told (D.content disk.old) (D.content disk.new) (WritesEdge raising range sector.now layer.now host (D.faults disk.new) result) }
{
    match disk.write_at(host, layer.place(), range.at / 512 * 512, sector) {
        Err(answer) => Turn::Ended((), refusal_for(answer, disk)),
        Ok(()) => {
            let next = moved(range, 512 - range.at % 512);
            Turn::More(Sizing::Going(raising.at(Stage::Zeroing(next))))
        }
    }
}

/// The cluster in which the old capacity ends is looked up. Where it is data, its rest gets zeros.
pub(crate) fn look<D: SharedDisk>(
    raising: Raising,
    looking: Looking,
    host: HostId,
    layer: &mut Layer,
    disk: &mut D,
) -> Turn<Sizing, (), ()>
    ensures counts { StepCounts (D.faults disk.old) (D.faults disk.new) (D.calls disk.old) (D.calls disk.new) result }
    ensures next { MatchTurn result (λ _. Unit {0}) (λ _. ⊥) (λ _ refusal. IsDiskRefusal refusal) }
    ensures layer { layer.new ≡ layer.old }
    ensures falls { NearsEnd (IsSameSizing (Going raising)) (sizing_left layer.old) (sizing_left layer.old (Going (at_stage raising (Seeking looking)))) result }
    ensures content { Told (D.content disk.old) (D.content disk.new) (LooksOn raising looking layer.old host result) }
{
    match looking.step(host, layer, disk) {
        Turn::More(next) => Turn::More(Sizing::Going(raising.at(Stage::Seeking(next)))),
        Turn::Ended((), refusal) => Turn::Ended((), refusal),
        Turn::Done(looked) => {
            let next = after_looking(raising, looked.entry, layer);
            Turn::More(Sizing::Going(raising.at(next)))
        }
    }
}

// The stage behind the look, by what it found.
fn after_looking(raising: Raising, entry: Entry, layer: &Layer) -> Stage
    ensures { result ≡ after_looking layer.now (asked_of raising) entry }
{
    match entry {
        Entry::Data(place) => {
            Stage::Zeroing(rest_range(layer.header(), layer.capacity(), place))
        }
        _ => tables_stage(layer.header(), raising.capacity),
    }
}
