// The walk over a layer's clusters.
use crate::run::{Run, add_run};
use memory_disk::Memory;
use qcow_format::Entry;
use qcow_layer::{Layer, Looked, Looking};
use sd_names::{HostId, LayerFault, Refusal, Turn};
use std::alloc::Global;

// The virtual disk: its size, and that of its clusters, in bytes.
#[derive(Clone, Copy, Debug)]
struct Grid {
    size: u64,
    cluster: u64,
}

// The grid of a layer. One that opened has clusters of 4,096 to 2,097,152 bytes.
fn grid_of(layer: &Layer) -> Result<Grid, Refusal> {
    let header = layer.header();
    match 1u64.checked_shl(header.cluster_bits) {
        Some(cluster) => Ok(Grid {
            size: header.size,
            cluster,
        }),
        None => Err(Refusal::LayerRefused(layer.volume(), LayerFault::Bits)),
    }
}

// Looks a cluster up.
fn look(
    host: HostId,
    disk: &mut Memory,
    layer: &mut Layer,
    cluster: u64,
) -> Result<Looked, Refusal> {
    let mut work = Looking::begin(cluster);
    loop {
        match work.step(host, layer, disk) {
            Turn::More(next) => work = next,
            Turn::Done(looked) => return Ok(looked),
            Turn::Ended((), refusal) => return Err(refusal),
        }
    }
}

// Adds so many clusters from one on, of which the layer says this, as far as the virtual disk goes.
fn add_clusters(
    runs: &mut Vec<Run>,
    grid: Grid,
    cluster: u64,
    count: u64,
    entry: Entry,
) -> Result<(), Refusal> {
    let first = cluster.saturating_mul(grid.cluster);
    if first >= grid.size {
        return Ok(());
    }
    let left = grid.size - first;
    let length = count.saturating_mul(grid.cluster);
    let run = Run {
        first,
        length: if length < left { length } else { left },
        entry,
    };
    match add_run(runs, run) {
        Ok(()) => Ok(()),
        Err(_) => Err(Refusal::OutOfMemory),
    }
}

// Adds the clusters of an L2 table from one on. Where the table isn't there they are looked up at once.
fn add_table(
    runs: &mut Vec<Run>,
    host: HostId,
    disk: &mut Memory,
    layer: &mut Layer,
    grid: Grid,
    first: u64,
) -> Result<(), Refusal> {
    let entries = grid.cluster / 8;
    let looked = look(host, disk, layer, first)?;
    if !looked.table {
        return add_clusters(runs, grid, first, entries, Entry::Absent);
    }
    for j in 0..entries {
        let cluster = first.saturating_add(j);
        let looked = look(host, disk, layer, cluster)?;
        add_clusters(runs, grid, cluster, 1, looked.entry)?;
    }
    Ok(())
}

/// The runs of a layer, in order.
pub(crate) fn runs_of(
    alloc: Global,
    host: HostId,
    disk: &mut Memory,
    layer: &mut Layer,
) -> Result<Vec<Run>, Refusal> {
    let grid = grid_of(layer)?;
    let tables = u64::from(layer.header().l1_size);
    let mut runs = Vec::new(alloc);
    for i in 0..tables {
        let first = i.saturating_mul(grid.cluster / 8);
        add_table(&mut runs, host, disk, layer, grid, first)?;
    }
    Ok(runs)
}
