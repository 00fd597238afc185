// The layer of a file that is made anew, without reading it.
ghost use Rattle.std.specs.Prelude.{◌≡◌, ◌%◌, ◌*◌, ◌/◌, ◌+◌, ◌-◌, ◌<◌, ◌≤◌, ◌^◌, ◌==◌, ◌&&◌, not, nat_lt, ℕ, MatchResult, IfOk, Option, Some};
ghost use Rattle.sd_names.specs.declared.refusal.Refusal.TheVariants.{OutOfMemory};
ghost use Rattle.layer_walk.specs.Bits.{has, room_of};
ghost use Rattle.layer_walk.specs.Marks.{free_by, map_size};
ghost use Rattle.layer_creating.specs.New.{HasBytes, IsCapacity, IsLength, is_used_new, parent_of};
ghost use Rattle.qcow_layer.specs.Fresh.{IsFresh, IsNewMap};

use crate::layer::Layer;
use crate::stages::Target;
use crate::starting::roof;
use layer_creating::{Backing, new_header};
use layer_walk::{Bits, Marks, Work};
use sd_names::{Id, NoMemory, Place, Refusal};
use std::alloc::Global;

/// The clusters of a new layer, in bytes, and how many of them a block counts.
const CLUSTER: u64 = 65_536;

const RANGE: u64 = 32_768;

/// How many clusters the header and the tables of a new layer take.
const TABLES: u64 = 4;

// Takes the first `count` multiples of a number out of a set.
fn remove_multiples(bits: &mut Bits, of: u64, count: u64)
    requires some { 0 < of }
    requires within { of * count < room_of bits.old + of }
    ensures has { (c : ℕ) → has bits.new c ≡ (has bits.old c && not (c % of == 0 && nat_lt (c / of) count)) }
    ensures room { room_of bits.new ≡ room_of bits.old }
{
    for k in 0..count {
        bits.remove(of * k);
    }
}

// The map of a new layer whose file has a length in bytes, and gets at most another one.
fn new_map(alloc: Global, length: u64, roof: u64) -> Result<Marks, NoMemory>
    requires { IsLength length }
    ensures { IfOk result (λ marks. IsNewMap length roof marks) }
{
    let mut marks = Marks::new(alloc, length, CLUSTER, roof)?;
    let ranges = marks.free.room().div_ceil(RANGE);
    remove_multiples(&mut marks.free, 1, TABLES);
    remove_multiples(&mut marks.free, RANGE, ranges);
    Ok(marks)
}

// The identifier of the volume that a layer lies over.
fn parent_of(backing: Option<Backing>) -> Option<Id>
    ensures parent { result ≡ parent_of backing }
    ensures bytes { HasBytes backing }
{
    match backing {
        None => None,
        Some(backing) => {
            backing.parent.has_sixteen_bytes();
            Some(backing.parent)
        }
    }
}

impl Layer {
    /// The layer of the file of `length` bytes that `Creating` makes at `place` of the same capacity and backing file, for a
    /// volume whose capacity becomes at most `greatest` while the layer is open. All its memory is taken here. It is true
    /// once the file is made.
    pub fn fresh(
        alloc: Global,
        volume: Id,
        place: Place,
        capacity: u64,
        greatest: u64,
        backing: Option<Backing>,
        length: u64,
    ) -> Result<Layer, Refusal>
        requires capacity { IsCapacity capacity }
        requires length { IsLength length }
        ensures { MatchResult result (λ layer. IsFresh layer volume place capacity greatest backing length) (λ refusal. refusal ≡ OutOfMemory) }
    {
        match new_map(alloc, length, roof(greatest)) {
            Err(NoMemory) => Err(Refusal::OutOfMemory),
            Ok(marks) => Ok(Layer {
                target: Target {
                    volume,
                    place,
                    capacity,
                    greatest,
                },
                work: Work {
                    header: new_header(capacity, backing),
                    parent: parent_of(backing),
                    marks,
                },
            }),
        }
    }
}
