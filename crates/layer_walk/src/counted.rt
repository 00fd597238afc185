// What the map says once counts are taken in.
ghost use Rattle.std.specs.Prelude.{◌≡◌, ◌≢◌, ℕ, ◌+◌, ◌*◌, ◌/◌, ◌%◌, ◌^◌, ◌<◌, ◌≤◌};
ghost use Rattle.layer_walk.specs.Bits.{room_of};
ghost use Rattle.layer_walk.specs.Counting.{IsFound, Notes, PassesCounts, PassesNotes, PassesRange, TakesCount, TakesCounts, Uses};

use crate::item::cluster_bytes;
use crate::marks::Marks;
use crate::sector::half_at;
use qcow_format::Header;

impl Marks {
    // A cluster that is named and has the count 0. From now on only such clusters aren't free; none was met below `first`.
    fn note(&mut self, first: u64, c: u64)
        requires { first % 64 ≡ 0 }
        ensures { Notes first c self.old self.new }
    {
        self.noted = Some(c.saturating_mul(self.cluster));
        self.free.fill_below(first);
    }

    // A cluster that is used, where nothing is noted.
    fn use_cluster(&mut self, c: u64)
        requires { c < room_of self.old.free }
        ensures { Uses c self.old self.new }
    {
        self.free.remove(c);
    }

    // The count of a cluster, which isn't named or has a count above 0 where nothing is noted.
    fn take_count(&mut self, c: u64, count: u16)
        ensures { TakesCount c count self.old self.new }
    {
        if count == 0 || c >= self.free.room() {
            return;
        }
        if self.noted.is_some() {
            self.free.add(c);
        } else {
            self.free.remove(c);
        }
    }
}

/// How many clusters a refcount block counts.
pub(crate) fn block_span(header: &Header) -> u64
    requires low { 12 ≤ header.now.cluster_bits }
    requires high { header.now.cluster_bits ≤ 21 }
    ensures value { result ≡ 2 ^ header.now.cluster_bits / 2 }
    ensures least { 2048 ≤ result }
    ensures most { result ≤ 2 ^ 20 }
    ensures whole { result % 256 ≡ 0 }
{
    cluster_bytes(header) / 2
}

/// The clusters that a block would count, which the refcount table's entry with an index doesn't name: the first is used.
pub(crate) fn pass_range(header: &Header, marks: &mut Marks, entry: u64)
    requires low { 12 ≤ header.now.cluster_bits }
    requires high { header.now.cluster_bits ≤ 21 }
    requires inside { entry * (2 ^ header.now.cluster_bits / 2) < room_of marks.old.free }
    ensures { PassesRange header.now entry marks.old marks.new }
{
    if marks.noted.is_some() {
        return;
    }
    let span = block_span(header);
    let first = entry * span;
    match marks.free.missing(first, first + span) {
        Some(c) => marks.note(first, c),
        None => marks.use_cluster(first),
    }
}

// A cluster of the 256 from `first` on that is named and whose count in the sector is 0.
fn uncounted(marks: &Marks, first: u64, sector: &[u8; 512]) -> Option<u64>
    requires { first < 2 ^ 63 }
    ensures { IsFound first 256 sector.now marks.now result }
{
    for j in 0..256 {
        let c = first + j as u64;
        if half_at(sector, j) == 0 && !marks.free.has(c) {
            return Some(c);
        }
    }
    None
}

// Notes one of the 256 clusters from `first` on that is named and whose count in the sector is 0, where none is noted yet.
fn note_uncounted(marks: &mut Marks, first: u64, sector: &[u8; 512])
    requires few { first < 2 ^ 63 }
    requires whole { first % 256 ≡ 0 }
    ensures { PassesNotes first sector.now marks.old marks.new }
{
    if marks.noted.is_some() {
        return;
    }
    if let Some(c) = uncounted(marks, first, sector) {
        marks.note(first, c);
    }
}

// The counts in the sector of the 256 clusters from `first` on, where one that is named and has the count 0 is noted.
fn count_clusters(marks: &mut Marks, first: u64, sector: &[u8; 512])
    requires { first < 2 ^ 63 }
    ensures { TakesCounts first 256 sector.now marks.old marks.new }
{
    for j in 0..256 {
        marks.take_count(first + j as u64, half_at(sector, j));
    }
}

/// The counts of the 256 clusters from `first` on, which stand in a sector.
pub(crate) fn pass_counts(marks: &mut Marks, first: u64, sector: &[u8; 512])
    requires few { first < 2 ^ 63 }
    requires whole { first % 256 ≡ 0 }
    ensures { PassesCounts first sector.now marks.old marks.new }
{
    note_uncounted(marks, first, sector);
    count_clusters(marks, first, sector);
}
