// The first steps of an opening: the file's length, then its header, with which the walk begins.
ghost use Rattle.std.specs.Prelude.{ℕ, ◌≡◌, ◌%◌, ◌^◌, ◌≤◌, ◌<◌, true, false};
ghost use Rattle.shared_disk.specs.Calls.{Told};
ghost use Rattle.sd_names.specs.Turn.{MatchTurn};
ghost use Rattle.shared_disk.specs.Content.{Content};
ghost use Rattle.shared_disk.specs.Step.{EndsOnlyBy, StepCounts, TurnFaults};
ghost use Rattle.qcow_layer.specs.Left.{Falls, StaysInside};
ghost use Rattle.qcow_layer.specs.Stages.{BeginsWork, IsGone, IsOpeningRefusal, Steps, roof};

use crate::reading::read_head;
use crate::stages::{Stage, Target, passed};
use layer_walk::{Marks, Work, begin_walk, cluster_bytes};
use qcow_format::{Header, backing_id};
use sd_names::{HostId, Id, LayerFault, NoMemory, Refusal, Turn};
use shared_disk::{SharedDisk, refusal_for};
use std::alloc::Global;

/// The file's length.
pub(crate) fn step_begun<D: SharedDisk>(
    target: Target,
    host: HostId,
    disk: &mut D,
) -> Turn<Stage, Work, ()>
    ensures counts { StepCounts (D.faults disk.old) (D.faults disk.new) (D.calls disk.old) (D.calls disk.new) result }
    ensures refusals { EndsOnlyBy (IsOpeningRefusal false) result }
    ensures inside { StaysInside Stage.Begun result }
    ensures falls { Falls Stage.Begun result }
    ensures content { Told (D.content disk.old) (D.content disk.new) (Steps target host Stage.Begun result) }
{
    match disk.length(host, target.place) {
        Err(answer) => Turn::Ended((), refusal_for(answer, disk)),
        Ok(length) => {
            if length < 512 {
                return Turn::Ended((), Refusal::LayerRefused(target.volume, LayerFault::Short));
            }
            Turn::More(Stage::Sized(length))
        }
    }
}

/// The length that a file has for a volume of a capacity, in bytes: what the capacity, an eighth of it and 2 MiB come to, in
/// whole units of 65,536 bytes.
pub(crate) fn roof(capacity: u64) -> u64
    ensures { result ≡ roof capacity }
{
    let length = capacity
        .saturating_add(capacity / 8)
        .saturating_add(2_097_152);
    length / 65_536 * 65_536
}

// The header is known: the map of clusters is taken, and the walk begins.
fn begin_work(
    alloc: Global,
    target: Target,
    length: u64,
    header: Header,
    parent: Option<Id>,
) -> Turn<Stage, Work, ()>
    requires low { 12 ≤ header.cluster_bits }
    requires high { header.cluster_bits ≤ 21 }
    requires few { header.l1_size < 2 ^ 32 }
    requires l1_aligned { header.l1_table_offset % 2 ^ header.cluster_bits ≡ 0 }
    requires table_aligned { header.refcount_table_offset % 2 ^ header.cluster_bits ≡ 0 }
    ensures cause { (before after : ℕ) → after ≡ before → TurnFaults before after result }
    ensures refusals { EndsOnlyBy (IsOpeningRefusal true) result }
    ensures gone { (d : Content) → MatchTurn result (λ _. Unit {0}) (λ _. Unit {0}) (λ _ refusal. IsGone target refusal d) }
    ensures inside { StaysInside (Stage.Sized length) result }
    ensures falls { Falls (Stage.Sized length) result }
    ensures next { BeginsWork target length header parent result }
{
    if header.size < target.capacity {
        return Turn::Ended(
            (),
            Refusal::LayerRefused(target.volume, LayerFault::Size(header.size)),
        );
    }
    match Marks::new(alloc, length, cluster_bytes(&header), roof(target.greatest)) {
        Err(NoMemory) => Turn::Ended((), Refusal::OutOfMemory),
        Ok(marks) => {
            let work = Work {
                header,
                parent,
                marks,
            };
            passed(target, begin_walk(work))
        }
    }
}

/// The file's header.
pub(crate) fn step_sized<D: SharedDisk>(
    alloc: Global,
    target: Target,
    host: HostId,
    disk: &mut D,
    length: u64,
) -> Turn<Stage, Work, ()>
    ensures counts { StepCounts (D.faults disk.old) (D.faults disk.new) (D.calls disk.old) (D.calls disk.new) result }
    ensures refusals { EndsOnlyBy (IsOpeningRefusal true) result }
    ensures inside { StaysInside (Stage.Sized length) result }
    ensures falls { Falls (Stage.Sized length) result }
    ensures content { Told (D.content disk.old) (D.content disk.new) (Steps target host (Stage.Sized length) result) }
{
    match read_head(host, disk, target.place) {
        Err(refusal) => Turn::Ended((), refusal),
        Ok(head) => match Header::read(&head) {
            Err(fault) => Turn::Ended((), Refusal::LayerRefused(target.volume, fault)),
            Ok(header) => {
                let parent = backing_id(&header, &head);
                begin_work(alloc, target, length, header, parent)
            }
        },
    }
}
