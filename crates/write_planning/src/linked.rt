// The links that belong together: those whose entries stand in one sector of an L2 table.
ghost use Rattle.std.specs.Prelude.{◌≡◌, ◌≢◌, ℕ, ◌/◌, ◌≤◌, ◌<◌, length, Some};
ghost use Rattle.layer_linking.specs.Links.{group_of};
ghost use Rattle.layer_placing.specs.Chosen.{listed};
ghost use Rattle.write_planning.specs.Linked.{AreLinks, IsGroup, end_in, group_in, links_to, place_at, sectors_of, start_in, table_with};
ghost use Rattle.write_planning.specs.Plan.{span_of, wanted_of};
ghost use Rattle.write_planning.specs.Span.{count_of, first_of};

use crate::plan::{Target, WritePlan};
use crate::span::Span;
use layer_linking::Links;
use layer_placing::Clusters;

impl Span {
    /// How many sectors of entries the part's clusters have, 64 entries to each: one or two.
    pub fn sectors(&self) -> usize
        ensures value { result ≡ sectors_of self.now }
        ensures few { result ≤ 2 }
    {
        let first = self.first();
        let last = first + self.count() as u64 - 1;
        (last / 64 - first / 64 + 1) as usize
    }

    // The index of the first of the part's clusters with its entry in one of these sectors.
    pub(crate) fn start_in(&self, sector: usize) -> usize
        requires { sector < sectors_of self.now }
        ensures value { result ≡ start_in self.now sector }
        ensures within { result < count_of self.now }
        ensures few { result < 17 }
    {
        let first = self.first();
        let _count = self.count();
        (64 * (first / 64 + sector as u64)).saturating_sub(first) as usize
    }

    // The index behind the last of the part's clusters with its entry in one of these sectors.
    fn end_in(&self, sector: usize) -> usize
        requires { sector < sectors_of self.now }
        ensures { result ≡ end_in self.now sector }
    {
        let first = self.first();
        let behind = 64 * (first / 64 + sector as u64 + 1) - first;
        behind.min(self.count() as u64) as usize
    }
}

// One link more.
fn joined(links: Option<Links>, cluster: u64, place: u64) -> Links
    requires { IsGroup (cluster / 64) links }
    ensures group { group_of result ≡ cluster / 64 }
    ensures here { links_to (Some result) cluster ≡ Some place }
    ensures others { (k : ℕ) → k ≢ cluster → links_to (Some result) k ≡ links_to links k }
{
    match links {
        None => Links::one(cluster, place),
        Some(links) => links.with(cluster, place),
    }
}

impl WritePlan {
    /// The place that a cluster gets, where it gets one, in bytes.
    pub fn place(&self, index: usize, placed: &Clusters) -> Option<u64>
        requires index { index < count_of (span_of self.now) }
        requires placed { length (listed placed.now) ≡ wanted_of self.now }
        ensures { result ≡ place_at self.now (listed placed.now) index }
    {
        match self.target(index) {
            Target::InPlace(_) => None,
            Target::Kept(place) => Some(place),
            Target::New(new) => Some(placed.get(new as usize).saturating_mul(self.span.width())),
        }
    }

    /// The links of the clusters whose entries stand in one of the sectors, by its index from 0, where there are any.
    pub fn links(&self, sector: usize, placed: &Clusters) -> Option<Links>
        requires sector { sector < sectors_of (span_of self.now) }
        requires placed { length (listed placed.now) ≡ wanted_of self.now }
        ensures { AreLinks self.now (listed placed.now) (group_in (span_of self.now) sector) (start_in (span_of self.now) sector) (end_in (span_of self.now) sector) result }
    {
        let mut links = None;
        for index in self.span.start_in(sector)..self.span.end_in(sector) {
            if let Some(place) = self.place(index, placed) {
                links = Some(joined(links, self.span.first() + index as u64, place));
            }
        }
        links
    }

    /// The new L2 table that is made with these links, by its index among the clusters that are taken.
    pub fn table(&self, sector: usize) -> Option<u8>
        requires { sector < sectors_of (span_of self.now) }
        ensures { result ≡ table_with self.now sector }
    {
        let start = self.span.start_in(sector);
        if !self.lacks_table(start) {
            return None;
        }
        Some(self.tables_below(start))
    }
}
