// The pieces in which a cluster is committed.
ghost use Rattle.std.specs.Prelude.{◌≡◌, ◌+◌, ◌*◌, ◌<◌, ◌≤◌};

/// What is left to be committed of a cluster: the sectors from `first` to `end` of the virtual disk, which both volumes have. The
/// next piece is the first 128 of them, or all where they are fewer.
#[derive(Clone, Copy, Debug)]
pub struct Pieces {
    pub(crate) first: u64,
    pub(crate) end: u64,
    ghost order: { first ≤ end },
    ghost low: { end < 36028797018963968 },
}

impl Pieces {
    ghost use Rattle.commit_reading.specs.Pieces.{count_of, end_of, first_of};

    /// Where the next piece begins, in bytes of the virtual disk.
    pub fn at(&self) -> u64
        ensures { result ≡ 512 * first_of self.now }
    {
        512 * self.first
    }

    // How many sectors the next piece has.
    fn count(&self) -> u64
        ensures value { result ≡ count_of self.now }
        ensures few { result ≤ 128 }
        ensures inside { self.now.first + result ≤ self.now.end }
    {
        (self.end - self.first).min(128)
    }

    /// How many bytes the next piece has: 512 to 65,536, or 0 where none is left.
    pub fn length(&self) -> usize
        ensures value { result ≡ 512 * count_of self.now }
        ensures few { result ≤ 65536 }
    {
        512 * self.count() as usize
    }

    /// What is left behind the next piece.
    pub fn behind(&self) -> Pieces
        ensures first { first_of result ≡ first_of self.now + count_of self.now }
        ensures end { end_of result ≡ end_of self.now }
    {
        Pieces {
            first: self.first + self.count(),
            end: self.end,
        }
    }
}
