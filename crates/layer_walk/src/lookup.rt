// The count of one cluster, which is looked up directly: the refcount table's entry of its block, then the count.
ghost use Rattle.std.specs.Prelude.{◌≡◌, ◌+◌, ◌*◌, ◌/◌, ◌^◌, ◌<◌, ◌≤◌};
ghost use Rattle.layer_walk.specs.Known.{Keeps, Leads};
ghost use Rattle.layer_walk.specs.Left.{Below, StaysInside, ThenInside, asks_left, then_left};
ghost use Rattle.layer_walk.specs.Walking.{AskTakes, IsNear, asked_place, IsWithCount, IsWithoutCount};

use crate::ask::{ask_head, ask_next};
use crate::head::{head_clusters, table_entries};
use crate::item::cluster_bytes;
use crate::rows::{next_entries, next_l1, pass_entries};
use crate::sector::{half_at, word_at};
use crate::walk::{Ask, Passed, Then, Walk};
use crate::work::Work;
use qcow_format::Header;
use sd_names::LayerFault;

// The index of the refcount table's entry for the cluster at a place.
fn block_index(header: &Header, place: u64) -> u64
    requires low { 12 ≤ header.now.cluster_bits }
    requires high { header.now.cluster_bits ≤ 21 }
    ensures value { result ≡ place / 2 ^ header.now.cluster_bits / (2 ^ header.now.cluster_bits / 2) }
    ensures few { result < 2 ^ 52 }
{
    let cluster = cluster_bytes(header);
    place / cluster / (cluster / 2)
}

/// Where the number stands that is asked for next: the entry of the refcount table, or the count in its block.
pub fn wanted_count(header: &Header, ask: &Ask) -> u64
    requires low { 12 ≤ header.now.cluster_bits }
    requires high { header.now.cluster_bits ≤ 21 }
    ensures { IsNear (asked_place header.now ask.now.place ask.now.block) result }
{
    let cluster = cluster_bytes(header);
    match ask.block {
        None => header
            .refcount_table_offset
            .saturating_add(8 * block_index(header, ask.place)),
        Some(block) => block.saturating_add(2 * (ask.place / cluster % (cluster / 2))),
    }
}

// The cluster has the count 0.
fn without_count(work: Work, ask: Ask) -> Passed
    ensures keeps { Keeps work result }
    ensures inside { StaysInside work result }
    ensures falls { Below work (λ h tables. 1 + then_left h tables ask.then) result }
    ensures next { Leads work (λ t capacity. IsWithoutCount t capacity work.marks ask) result }
{
    let fault = LayerFault::LowRefcount(ask.place);
    match ask.then {
        Then::Head(_, _, _) => Passed::Fault(fault),
        Then::Entries(_, _) => {
            let end = head_clusters(&work.header);
            ask_head(work, 0, end, fault)
        }
    }
}

// The cluster has a count.
fn with_count(work: Work, ask: Ask) -> Passed
    ensures keeps { Keeps work result }
    ensures inside { ThenInside work.header ask.then → StaysInside work result }
    ensures falls { Below work (λ h tables. 1 + then_left h tables ask.then) result }
    ensures next { Leads work (λ t capacity. IsWithCount t capacity work.marks ask) result }
{
    match ask.then {
        Then::Head(n, end, fault) => ask_next(work, n, end, fault),
        Then::Entries(k, row) => {
            if k >= table_entries(&work.header) {
                return next_l1(work, 0);
            }
            let next = k + 1;
            if next % 64 == 0 {
                return next_entries(work, next);
            }
            pass_entries(work, next, row)
        }
    }
}

/// The sector has the number that was asked for.
pub fn take_count(work: Work, ask: Ask, sector: &[u8; 512]) -> Passed
    ensures keeps { Keeps work result }
    ensures inside { ThenInside work.header ask.then → StaysInside work result }
    ensures falls { Below work (λ h tables. asks_left ask.block + then_left h tables ask.then) result }
    ensures next { AskTakes work ask sector.now result }
{
    let at = wanted_count(&work.header, &ask);
    match ask.block {
        None => {
            if block_index(&work.header, ask.place) >= table_entries(&work.header) {
                return without_count(work, ask);
            }
            let block = word_at(sector, (at % 512 / 8) as usize) / 512 * 512;
            if block == 0 {
                return without_count(work, ask);
            }
            let ask = Ask {
                place: ask.place,
                block: Some(block),
                then: ask.then,
            };
            Passed::More(Walk::Ask(work, ask))
        }
        Some(_) => {
            if half_at(sector, (at % 512 / 2) as usize) == 0 {
                return without_count(work, ask);
            }
            with_count(work, ask)
        }
    }
}
