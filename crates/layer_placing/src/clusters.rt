// A short list of clusters.
ghost use Rattle.std.specs.Prelude.{◌≡◌, ◌+◌, ◌<◌, ◌≤◌, ◌++◌, ◌∷◌, [], length, slice_index};
ghost use Rattle.arrayvec.specs.ArrayVec.{array_vec_len};

use arrayvec::ArrayVec;

/// Clusters of a layer's file by their numbers, at most 40. A cluster's place is its number times the size of a cluster.
#[derive(Drop)]
pub struct Clusters {
    numbers: ArrayVec<u64, 40>,
}

impl Clusters {
    ghost use Rattle.layer_placing.specs.Chosen.{listed};

    /// No cluster, as for a write that wants none.
    pub fn none() -> Clusters
        ensures { listed result ≡ [] }
    {
        Clusters {
            numbers: ArrayVec::new(),
        }
    }

    /// Puts a further cluster behind the others.
    pub(crate) fn push(&mut self, cluster: u64)
        requires { length (listed self.old) < 40 }
        ensures { listed self.new ≡ listed self.old ++ cluster ∷ [] }
    {
        self.numbers.push(cluster);
    }

    /// How many there are.
    pub fn count(&self) -> usize
        ensures count { result ≡ length (listed self.now) }
        ensures few { result ≤ 40 }
    {
        self.numbers.len()
    }

    /// One of them, by its index from 0.
    pub fn get(&self, index: usize) -> u64
        requires { index < length (listed self.now) }
        ensures { result ≡ slice_index (listed self.now) index }
    {
        self.numbers[index]
    }
}
