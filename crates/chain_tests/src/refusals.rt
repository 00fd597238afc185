// Which images are refused by their records, and which volumes their paths have.
use crate::images::State::{Illegal, Legal, Merged};
use crate::images::{Row, id, number, records};
use chain_records::{FoundVolumes, VolumeRecords};
use sd_names::Format::{Cow, Raw};
use sd_names::{NoMemory, Refusal, VolumeFault};

// What a refusal says: its number, the volume that it names, and the other volume, the number or the key behind that.
type Told = (u16, u8, u64, &'static str);

// The refusals of opening by records, and none.
fn told(refusal: Option<Refusal>) -> Told {
    match refusal {
        None => (0, 0, 0, ""),
        Some(Refusal::NoVolume(v)) => (60, number(&v), 0, ""),
        Some(Refusal::VolumeIllegal(v)) => (64, number(&v), 0, ""),
        Some(Refusal::MetaCorrupt(v, VolumeFault::BadValue(key))) => {
            (65, number(&v), 0, key.name())
        }
        Some(Refusal::WrongParent(v, p)) => (67, number(&v), number(&p) as u64, ""),
        Some(Refusal::ChainTooLong(count)) => (68, 0, count, ""),
        Some(other) => (other.number(), 0, 0, ""),
    }
}

const FINE: Told = (0, 0, 0, "");

const UNREAD: Told = (57, 0, 0, "");

// Images, why each is refused, and the path of its reading volume.
const IMAGES: [(&[Row], Told, &[u8]); 26] = [
    (&[], UNREAD, &[]),
    (&[(1, 0, Legal, Raw, 8)], FINE, &[1]),
    (&[(1, 0, Illegal, Raw, 8)], UNREAD, &[]),
    // chains, with merged volumes at the top, in the middle, two of them, and as a base
    (
        &[
            (1, 0, Legal, Raw, 8),
            (2, 1, Legal, Cow, 8),
            (3, 2, Legal, Cow, 9),
        ],
        FINE,
        &[3, 2, 1],
    ),
    (
        &[
            (1, 0, Legal, Raw, 8),
            (2, 1, Legal, Cow, 8),
            (3, 2, Merged, Cow, 8),
        ],
        FINE,
        &[2, 1],
    ),
    (
        &[
            (1, 0, Legal, Cow, 8),
            (2, 1, Merged, Cow, 8),
            (3, 2, Legal, Cow, 8),
        ],
        FINE,
        &[3, 1],
    ),
    (
        &[
            (1, 2, Legal, Cow, 8),
            (2, 3, Merged, Cow, 8),
            (3, 4, Merged, Cow, 8),
            (4, 0, Legal, Raw, 8),
        ],
        FINE,
        &[1, 4],
    ),
    (
        &[(1, 0, Merged, Cow, 8), (2, 1, Legal, Cow, 8)],
        FINE,
        &[2, 1],
    ),
    // an ILLEGAL volume that isn't merged counts
    (
        &[
            (1, 0, Legal, Raw, 8),
            (2, 1, Illegal, Cow, 8),
            (3, 2, Legal, Cow, 8),
        ],
        FINE,
        &[3, 2, 1],
    ),
    // two LEGAL branches, and one that is ILLEGAL
    (
        &[
            (1, 0, Legal, Raw, 8),
            (2, 1, Legal, Cow, 8),
            (3, 1, Legal, Cow, 8),
        ],
        UNREAD,
        &[],
    ),
    (
        &[
            (1, 0, Legal, Raw, 8),
            (2, 1, Legal, Cow, 8),
            (3, 1, Illegal, Cow, 8),
        ],
        FINE,
        &[2, 1],
    ),
    // parents that aren't there: the first volume's first, and before a ring
    (
        &[
            (1, 0, Legal, Raw, 8),
            (2, 9, Illegal, Cow, 8),
            (3, 8, Illegal, Cow, 8),
        ],
        (67, 2, 9, ""),
        &[1],
    ),
    (
        &[(1, 1, Legal, Cow, 8), (3, 9, Illegal, Cow, 8)],
        (67, 3, 9, ""),
        &[],
    ),
    // rings: off the path, of one volume, of merged volumes, and before the format
    (
        &[
            (1, 0, Legal, Raw, 8),
            (4, 5, Illegal, Cow, 8),
            (5, 4, Illegal, Cow, 8),
        ],
        (68, 0, 0, ""),
        &[1],
    ),
    (
        &[(1, 0, Legal, Raw, 8), (4, 4, Illegal, Cow, 8)],
        (68, 0, 0, ""),
        &[1],
    ),
    (
        &[
            (1, 0, Legal, Raw, 8),
            (4, 5, Merged, Cow, 8),
            (5, 6, Merged, Cow, 8),
            (6, 5, Merged, Cow, 8),
        ],
        (68, 0, 0, ""),
        &[1],
    ),
    (
        &[(1, 2, Legal, Raw, 8), (2, 1, Legal, Cow, 8)],
        (68, 0, 0, ""),
        &[],
    ),
    // a raw volume with a parent, before its own capacity, and behind the capacity of a volume before it
    (
        &[(1, 0, Legal, Raw, 8), (2, 1, Legal, Raw, 7)],
        (65, 2, 0, "FORMAT"),
        &[2, 1],
    ),
    (
        &[
            (1, 3, Legal, Cow, 7),
            (2, 3, Legal, Raw, 8),
            (3, 0, Legal, Raw, 8),
        ],
        (65, 1, 0, "CAP"),
        &[],
    ),
    // capacities below that of the parent, of a merged parent, and of the one that counts
    (
        &[(1, 0, Legal, Raw, 8), (2, 1, Legal, Cow, 7)],
        (65, 2, 0, "CAP"),
        &[2, 1],
    ),
    (
        &[
            (1, 0, Legal, Raw, 8),
            (2, 1, Merged, Cow, 9),
            (3, 2, Legal, Cow, 8),
        ],
        FINE,
        &[3, 1],
    ),
    (
        &[
            (1, 0, Legal, Raw, 9),
            (2, 1, Merged, Cow, 8),
            (3, 2, Legal, Cow, 8),
        ],
        (65, 3, 0, "CAP"),
        &[3, 1],
    ),
    // an ILLEGAL volume is asked only where a LEGAL one reads through it
    (
        &[
            (1, 0, Legal, Raw, 8),
            (2, 1, Legal, Cow, 8),
            (3, 2, Illegal, Cow, 7),
        ],
        FINE,
        &[2, 1],
    ),
    (
        &[
            (1, 0, Legal, Raw, 8),
            (2, 1, Illegal, Cow, 7),
            (3, 2, Legal, Cow, 8),
        ],
        (65, 2, 0, "CAP"),
        &[3, 2, 1],
    ),
    // a capacity comes before the reading volume
    (
        &[
            (1, 0, Legal, Raw, 8),
            (2, 1, Legal, Cow, 8),
            (3, 1, Legal, Cow, 7),
        ],
        (65, 3, 0, "CAP"),
        &[],
    ),
    // the order of the list counts, not that of the chain
    (
        &[
            (1, 3, Legal, Cow, 8),
            (2, 0, Legal, Raw, 8),
            (3, 2, Legal, Cow, 8),
        ],
        FINE,
        &[1, 3, 2],
    ),
];

#[test]
fn images_are_refused_or_have_a_path(rt: HostRuntime) -> Result<(), NoMemory> {
    for (rows, want, path) in IMAGES {
        let records = records(rt.alloc(), rows, 0)?;
        assert!(rt; told(records.missing_file()) == FINE);
        assert!(rt; told(records.first_refusal()) == want);
        assert!(rt; has_path(&records, path));
    }
    Ok(())
}

// Whether the reading volume's path has these volumes: none where there is no such volume.
fn has_path(records: &VolumeRecords, want: &[u8]) -> bool {
    let Some(path) = records.reading_path() else {
        return want.is_empty();
    };
    if path.len() != want.len() {
        return false;
    }
    for (id, number_of_it) in path.as_slice().iter().zip(want) {
        if number(id) != *number_of_it {
            return false;
        }
    }
    true
}

// A chain of 32 volumes has them all on its path.
#[test]
fn the_longest_chain(rt: HostRuntime) -> Result<(), NoMemory> {
    let mut rows = [(0, 0, Legal, Cow, 8); 32];
    for (at, row) in rows.iter_mut().enumerate() {
        let number = at as u8;
        *row = (number + 1, number, Legal, Cow, 8);
    }
    let whole = records(rt.alloc(), &rows, 0)?;
    assert!(rt; told(whole.first_refusal()) == FINE);
    assert!(rt; whole.reading_path().map_or(0, |path| path.len()) == 32);
    let ring = [(1, 32, Legal, Cow, 8)];
    let mut closed = rows;
    closed[0] = ring[0];
    let closed = records(rt.alloc(), &closed, 0)?;
    assert!(rt; told(closed.first_refusal()) == (68, 0, 0, ""));
    assert!(rt; closed.reading_path().is_none());
    Ok(())
}

#[test]
fn the_first_missing_file(rt: HostRuntime) -> Result<(), NoMemory> {
    let rows = [
        (1, 0, Legal, Raw, 8),
        (2, 9, Legal, Cow, 8),
        (3, 2, Legal, Cow, 8),
    ];
    for (missing, want) in [(0, FINE), (2, (60, 2, 0, "")), (3, (60, 3, 0, ""))] {
        let records = records(rt.alloc(), &rows, missing)?;
        assert!(rt; told(records.missing_file()) == want);
    }
    Ok(())
}

// A listing is counted to its end.
#[test]
fn more_than_32_volumes(rt: HostRuntime) {
    for (count, want) in [
        (0, FINE),
        (32, FINE),
        (33, (68, 0, 33, "")),
        (200, (68, 0, 200, "")),
    ] {
        let mut found = FoundVolumes::new();
        for number in 0..count {
            found.push(id(number));
        }
        assert!(rt; told(found.refusal()) == want);
        assert!(rt; found.as_slice().len() == (count as usize).min(32));
    }
}

// The base and the top of a merge, and why it can't be.
#[test]
fn volumes_that_may_be_merged(rt: HostRuntime) -> Result<(), NoMemory> {
    let rows = [
        (1, 0, Legal, Raw, 8),
        (2, 1, Merged, Cow, 8),
        (3, 2, Legal, Cow, 8),
        (4, 3, Illegal, Cow, 8),
    ];
    let records = records(rt.alloc(), &rows, 0)?;
    for (base, top, want) in [
        (1, 3, FINE),
        (9, 8, (60, 9, 0, "")),
        (1, 8, (60, 8, 0, "")),
        (2, 3, (67, 3, 1, "")),
        (3, 1, (67, 1, 0, "")),
        (3, 4, (64, 4, 0, "")),
        (1, 4, (67, 4, 3, "")),
    ] {
        assert!(rt; told(records.subchain_refusal(&id(base), &id(top))) == want);
    }
    Ok(())
}
