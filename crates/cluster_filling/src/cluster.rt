// A cluster that is written whole, and the pieces in which it is.
ghost use Rattle.std.specs.Prelude.{◌≡◌, ◌⊎◌, ℕ, ◌+◌, ◌<◌, ◌≤◌, false};

use sd_names::Id;

/// A cluster of a layer's volume that has no data, and the part that a guest writes over it. Lengths and offsets are in bytes.
#[derive(Clone, Copy, Debug)]
pub struct NewCluster {
    /// The volume, one of the chain's path.
    pub volume: Id,
    /// The volume that is read for the sectors outside the part, which stands below it on the path. Where there is none they
    /// are zeros.
    pub below: Option<Id>,
    /// The cluster's number on the virtual disk.
    pub number: u64,
    /// The size of a cluster: 4,096 to 2,097,152.
    pub width: u64,
    /// Where the cluster is to stand in the volume's file.
    pub place: u64,
    /// The volume's capacity.
    pub capacity: u64,
    /// Where the guest's part begins.
    pub at: u64,
}

/// The same in sectors of 512 bytes.
#[derive(Clone, Copy, Debug)]
pub(crate) struct Cluster {
    pub(crate) volume: Id,
    pub(crate) below: Option<Id>,
    /// The sector of the volume's file with which the cluster begins.
    pub(crate) target: u64,
    /// The sector of the virtual disk with which it begins.
    pub(crate) first: u64,
    /// How many sectors it has.
    pub(crate) count: u64,
    /// How many sectors the volume has.
    pub(crate) capacity: u64,
    /// The sector of the virtual disk with which the part begins.
    pub(crate) from: u64,
    ghost target_low: { target ≤ 18014398509481984 },
    ghost first_low: { first ≤ 18014398509481984 },
    ghost some: { 8 ≤ count },
    ghost few: { count ≤ 4096 },
}

/// A sector that no cluster of a layer begins behind.
const MOST: u64 = 18_014_398_509_481_984;

impl Cluster {
    ghost use Rattle.cluster_filling.specs.Cluster.{IsClusterOf, IsIn, piece_at};

    /// The cluster in sectors.
    pub(crate) fn of(new: NewCluster) -> Cluster
        requires low { 4096 ≤ new.width }
        requires high { new.width ≤ 2097152 }
        ensures { IsClusterOf new result }
    {
        let count = new.width / 512;
        Cluster {
            volume: new.volume,
            below: new.below,
            target: (new.place / 512).min(MOST),
            first: new.number.saturating_mul(count).min(MOST),
            count,
            capacity: new.capacity / 512,
            from: new.at / 512,
        }
    }

    /// How many sectors the piece has that begins so many sectors into the cluster.
    pub(crate) fn piece(&self, done: u64) -> usize
        requires { done < self.now.count }
        ensures value { result ≡ piece_at self.now done }
        ensures some { 0 < result }
        ensures few { result ≤ 128 }
    {
        (self.count - done).min(128) as usize
    }

    /// Whether a sector of the piece that begins so many sectors into the cluster is to be read: one outside the part, of
    /// `part` sectors, and below the capacity.
    pub(crate) fn is_read(&self, done: u64, part: usize) -> bool
        requires inside { done < self.now.count }
        requires part { part ≤ 128 }
        ensures { result ≡ false → (j : ℕ) → j < piece_at self.now done → IsIn self.now part (self.now.first + done + j) ⊎ (self.now.capacity ≤ self.now.first + done + j) }
    {
        let low = self.first + done;
        let high = (low + self.piece(done) as u64).min(self.capacity);
        low < high && (low < self.from || self.from.saturating_add(part as u64) < high)
    }
}
