// What is done with each cluster.
ghost use Rattle.std.specs.Prelude.{◌≡◌, ◌≢◌, ℕ, ◌+◌, ◌≤◌, ◌<◌, Some, None};

use crate::span::Span;
use qcow_format::Entry;
use qcow_layer::Looked;

/// What is done with a cluster of the virtual disk.
#[derive(Clone, Copy, Debug, PartialEq, Eq)]
pub enum Target {
    /// It stands at this place in the layer's file, in bytes: the part's bytes are written over those there.
    InPlace(u64),
    /// It reads as zeros, and this place is kept for it: it is written there whole, and gets its entry.
    Kept(u64),
    /// It is written whole into a cluster of the file that is taken for it, and gets its entry: the one with this index
    /// among those that are taken.
    New(u8),
}

/// What a write of a part does with each cluster, as soon as each was looked up in the layer. Of the clusters that are
/// taken for the write those of new L2 tables come first, then those of data, both in the order of the virtual disk.
#[derive(Clone, Copy, Debug)]
pub struct WritePlan {
    pub(crate) span: Span,
    found: [Option<Looked>; 17],
    done: usize,
}

impl WritePlan {
    ghost use Rattle.write_planning.specs.Linked.{sectors_of};
    ghost use Rattle.write_planning.specs.Plan.{found_at, lacks_place, lacks_table, looked_up, places_below, span_of, tables_below, tables_of, target_at, wanted_of};
    ghost use Rattle.write_planning.specs.Span.{count_of, first_of};

    /// A plan for which nothing was looked up yet.
    pub fn begin(span: Span) -> WritePlan
        ensures span { span_of result ≡ span }
        ensures none { looked_up result ≡ 0 }
    {
        let found: [Option<Looked>; 17] = [None; 17];
        WritePlan {
            span,
            found,
            done: 0,
        }
    }

    /// The part, and the clusters that it meets.
    pub fn span(&self) -> Span
        ensures { result ≡ span_of self.now }
    {
        self.span
    }

    /// How many of the clusters were looked up.
    pub fn looked_up(&self) -> usize
        ensures { result ≡ looked_up self.now }
    {
        self.done
    }

    /// The same with what was found of the next cluster.
    pub fn with(self, looked: Looked) -> WritePlan
        requires { looked_up self < count_of (span_of self) }
        ensures span { span_of result ≡ span_of self }
        ensures next { looked_up result ≡ looked_up self + 1 }
        ensures here { found_at result (looked_up self) ≡ Some looked }
        ensures others { (j : ℕ) → j ≢ looked_up self → found_at result j ≡ found_at self j }
    {
        let _count = self.span.count();
        let mut found = self.found;
        found[self.done] = Some(looked);
        WritePlan {
            span: self.span,
            found,
            done: self.done + 1,
        }
    }

    /// What was found of a cluster, by its index among those that the part meets. None where it wasn't looked up.
    pub fn found(&self, index: usize) -> Option<Looked>
        requires { index < count_of (span_of self.now) }
        ensures { result ≡ found_at self.now index }
    {
        let _count = self.span.count();
        self.found[index]
    }

    // Whether the layer has no cluster of the file for a cluster.
    fn lacks_place(&self, index: usize) -> bool
        requires { index < 17 }
        ensures { result ≡ lacks_place self.now index }
    {
        match self.found[index] {
            None => true,
            Some(looked) => match looked.entry {
                Entry::Absent => true,
                Entry::Zero(0) => true,
                Entry::Zero(_) => false,
                Entry::Data(_) => false,
            },
        }
    }

    // Whether a cluster is the first of the part's under an L2 table that isn't there.
    pub(crate) fn lacks_table(&self, index: usize) -> bool
        requires { index < 17 }
        ensures { result ≡ lacks_table self.now index }
    {
        let per = self.span.width() / 8;
        if index != 0 && (self.span.first() + index as u64) % per != 0 {
            return false;
        }
        match self.found[index] {
            None => true,
            Some(looked) => !looked.table,
        }
    }

    // How many L2 tables the clusters below an index lack.
    pub(crate) fn tables_below(&self, end: usize) -> u8
        requires { end ≤ 17 }
        ensures value { result ≡ tables_below self.now end }
        ensures few { result ≤ end }
    {
        let mut count = 0;
        for index in 0..end {
            if self.lacks_table(index) {
                count += 1;
            }
        }
        count
    }

    // How many of the clusters below an index lack a cluster of the file.
    fn places_below(&self, end: usize) -> u8
        requires { end ≤ 17 }
        ensures value { result ≡ places_below self.now end }
        ensures few { result ≤ end }
    {
        let mut count = 0;
        for index in 0..end {
            if self.lacks_place(index) {
                count += 1;
            }
        }
        count
    }

    /// How many clusters of the file the write wants, those of new L2 tables included: one for each that the part meets at the
    /// most, and a table for each of their sectors of entries.
    pub fn wanted(&self) -> u8
        ensures value { result ≡ wanted_of self.now }
        ensures few { result ≤ 19 }
        ensures met { result ≤ count_of (span_of self.now) + sectors_of (span_of self.now) }
    {
        let count = self.span.count();
        self.tables_below(count) + self.places_below(count)
    }

    /// How many of these are for new L2 tables.
    pub fn tables(&self) -> u8
        ensures { result ≡ tables_of self.now }
    {
        self.tables_below(self.span.count())
    }

    /// What is done with a cluster, by its index among those that the part meets.
    pub fn target(&self, index: usize) -> Target
        requires { index < count_of (span_of self.now) }
        ensures { result ≡ target_at self.now index }
    {
        let tables = self.tables_below(self.span.count());
        let new = tables + self.places_below(index);
        match self.found[index] {
            None => Target::New(new),
            Some(looked) => match looked.entry {
                Entry::Absent => Target::New(new),
                Entry::Zero(0) => Target::New(new),
                Entry::Zero(place) => Target::Kept(place),
                Entry::Data(place) => Target::InPlace(place),
            },
        }
    }
}
