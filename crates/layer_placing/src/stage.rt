// How far a placing is.
ghost use Rattle.std.specs.Prelude.{◌≡◌, ◌<◌, ◌≤◌, length};
ghost use Rattle.layer_placing.specs.Chosen.{listed};

use crate::clusters::Clusters;

/// How many clusters are asked for.
#[derive(Clone, Copy, Debug)]
pub(crate) struct Asked {
    pub(crate) count: u8,
    pub(crate) ghost some: { 1 ≤ count },
    pub(crate) ghost few: { count ≤ 40 },
}

/// The clusters that were chosen, of which those before `done` have their counts.
#[derive(Drop)]
pub(crate) struct Work {
    pub(crate) chosen: Clusters,
    pub(crate) done: usize,
    pub(crate) ghost more: { done < length (listed chosen) },
}

impl Work {
    ghost use Rattle.layer_placing.specs.Stages.{current_of};

    /// The cluster that is counted next.
    pub(crate) fn current(&self) -> u64
        ensures { result ≡ current_of self.now }
    {
        self.chosen.get(self.done)
    }
}

/// A sector of counts at a place of the file, as it is to be: those of the chosen clusters from `done` up to `upto`, which
/// stand in it, are 1.
#[derive(Drop)]
pub(crate) struct Raise {
    pub(crate) work: Work,
    pub(crate) at: u64,
    pub(crate) counts: [u8; 512],
    pub(crate) upto: usize,
    pub(crate) ghost ahead: { work.done < upto },
    pub(crate) ghost fits: { upto ≤ length (listed work.chosen) },
}

/// What is known, and so what comes next.
#[derive(Drop)]
pub(crate) enum Stage {
    /// Nothing: the length is asked, and the clusters are chosen.
    Begun(Asked),
    /// The clusters: the entry of the next one's range is read.
    Finding(Work),
    /// The block of its range, in bytes: the sector of its count is read.
    Counting(Work, u64),
    /// That sector, as it is to be: it is written.
    Raising(Raise),
    /// There is no block, but the sector of its entry: the block is written, and so many pieces of it are.
    Zeroing(Work, [u8; 512], u64),
    /// The block is written: it is synced.
    Zeroed(Work, [u8; 512]),
    /// The block is on the medium: it is entered.
    Settled(Work, [u8; 512]),
    /// The block is entered, and stands at this place: the entry is synced.
    Entered(Work, u64),
}
