// The clusters of the virtual disk that a part meets.
ghost use Rattle.std.specs.Prelude.{◌≡◌, ◌≤◌, ◌<◌};
ghost use Rattle.write_planning.specs.Part.{IsPart, IsPieceOf};

/// A part of a volume, and the clusters of the virtual disk that it meets.
#[derive(Clone, Copy, Debug)]
pub struct Span {
    at: u64,
    length: u64,
    width: u64,
    ghost part: { IsPart at length width },
}

/// The bytes of a part that lie in one cluster: from the part's byte `from` up to `end`, which isn't among them. In the
/// cluster the first of them is the byte `offset`.
#[derive(Clone, Copy, Debug, PartialEq, Eq)]
pub struct Piece {
    pub from: usize,
    pub end: usize,
    pub offset: u64,
}

impl Span {
    ghost use Rattle.write_planning.specs.Span.{at_of, count_of, first_of, length_of, width_of};

    /// The part of `length` bytes from the volume's byte `at` on, in a layer whose clusters have `width` bytes.
    pub fn new(at: u64, length: u64, width: u64) -> Span
        requires { IsPart at length width }
        ensures at { at_of result ≡ at }
        ensures length { length_of result ≡ length }
        ensures width { width_of result ≡ width }
    {
        Span { at, length, width }
    }

    /// The size of a cluster, in bytes.
    pub fn width(&self) -> u64
        ensures value { result ≡ width_of self.now }
        ensures low { 4096 ≤ result }
        ensures high { result ≤ 2097152 }
    {
        self.width
    }

    /// The number of the first cluster that the part meets.
    pub fn first(&self) -> u64
        ensures { result ≡ first_of self.now }
    {
        self.at / self.width
    }

    /// How many clusters the part meets: they have the numbers from the first on.
    pub fn count(&self) -> usize
        ensures value { result ≡ count_of self.now }
        ensures some { 1 ≤ result }
        ensures few { result ≤ 17 }
    {
        let last = (self.at + self.length - 1) / self.width;
        (last - self.at / self.width + 1) as usize
    }

    /// The bytes of the part that lie in one of these clusters, by its index from 0.
    pub fn piece(&self, index: usize) -> Piece
        requires { index < count_of self.now }
        ensures { IsPieceOf (at_of self.now) (length_of self.now) (width_of self.now) index result }
    {
        let start = (self.at / self.width + index as u64) * self.width;
        let from = start.max(self.at) - self.at;
        let end = (start + self.width).min(self.at + self.length) - self.at;
        Piece {
            from: from as usize,
            end: end as usize,
            offset: self.at + from - start,
        }
    }
}
