// Images that are opened: the path, its volumes, and what may be merged.
use super::refused::line;
use super::{Cow, Legal, Merged, OPEN, Raw, Twist, Volumes, image_on, open, told};
use crate::images::{Row, id, number};
use sd_names::{Format, HostId, NoMemory};
use std::alloc::Global;
use std::test::Fail;
use volume_chain::{Chain, OpenVolume};

// Whether the path of a chain has these volumes, and each is open as its row says.
fn has_path(chain: &Chain, rows: &[Row], path: &[u8]) -> bool {
    if chain.path().len() != path.len() || chain.volumes().len() != path.len() {
        return false;
    }
    for ((v, volume), want) in chain.path().iter().zip(chain.volumes()).zip(path) {
        if number(v) != *want {
            return false;
        }
        for row in rows {
            if row.0 == *want {
                let is = match volume {
                    OpenVolume::Raw(length) => row.3 == Raw && *length == 1024,
                    OpenVolume::Cow(layer) => {
                        row.3 == Cow && layer.capacity() == row.4.saturating_mul(512)
                    }
                };
                if !is {
                    return false;
                }
            }
        }
    }
    true
}

// Whether an image of this version opens with this path, and its reading volume has this capacity in sectors.
fn opens(
    alloc: Global,
    host: HostId,
    version: u8,
    volumes: Volumes,
    path: &[u8],
    sectors: u64,
) -> Result<bool, NoMemory> {
    let mut disk = image_on(alloc, version, volumes, Vec::new(alloc))?;
    let (got, _, chain) = open(alloc, &mut disk, host, version)?;
    let Some(chain) = chain else {
        return Ok(false);
    };
    let reading = chain.reading().map(|v| number(&v));
    Ok(
        got == OPEN
            && reading == path.first().copied()
            && chain.capacity() == Some(sectors.saturating_mul(512))
            && number(&chain.sd()) == super::SD
            && number(&chain.image()) == super::IMAGE
            && has_path(&chain, volumes.0, path),
    )
}

const BASE: Row = (1, 0, Legal, Raw, 8);

// Images, their paths, and the capacity of the first volume of each.
const OPENED: [(Volumes, &[u8], u64); 8] = [
    ((&[BASE], 0, Twist::Fine), &[1], 8),
    ((&[(1, 0, Legal, Cow, 8)], 0, Twist::Fine), &[1], 8),
    ((&[BASE, (2, 1, Legal, Cow, 9)], 0, Twist::Fine), &[2, 1], 9),
    (
        (
            &[(1, 0, Legal, Cow, 8), (2, 1, Legal, Cow, 8)],
            0,
            Twist::Fine,
        ),
        &[2, 1],
        8,
    ),
    // a merged volume is passed over, and a header may name it or the one below
    (
        (
            &[BASE, (2, 1, Merged, Cow, 8), (3, 2, Legal, Cow, 8)],
            0,
            Twist::Fine,
        ),
        &[3, 1],
        8,
    ),
    (
        (
            &[BASE, (2, 1, Merged, Cow, 8), (3, 2, Legal, Cow, 8)],
            3,
            Twist::Names(1),
        ),
        &[3, 1],
        8,
    ),
    // what isn't on the path isn't opened: a merged volume above the reading one, and its layer
    (
        (&[BASE, (2, 1, Merged, Cow, 8)], 2, Twist::Compressed),
        &[1],
        8,
    ),
    // a smaller volume that no LEGAL one reads through
    (
        (
            &[BASE, (2, 1, Legal, Cow, 8), (3, 2, Merged, Cow, 7)],
            0,
            Twist::Fine,
        ),
        &[2, 1],
        8,
    ),
];

// Every other image is one of version 4.
#[test]
fn images_are_opened(rt: HostRuntime) -> Result<(), Fail> {
    let host = HostId::new(1).ok_or("no host")?;
    let mut version = 4;
    for (volumes, path, sectors) in OPENED {
        version = if version == 4 { 5 } else { 4 };
        assert!(rt;
            opens(rt.alloc(), host, version, volumes, path, sectors)?,
            "{volumes:?}"
        );
    }
    Ok(())
}

// A chain of 32 volumes opens.
#[test]
fn the_longest_chain_is_opened(rt: HostRuntime) -> Result<(), Fail> {
    let host = HostId::new(1).ok_or("no host")?;
    let all = line(32);
    let rows = all.get(..32).ok_or("a short line")?;
    let mut path = [0; 32];
    for (n, v) in path.iter_mut().enumerate() {
        *v = 32 - n as u8;
    }
    assert!(rt; opens(rt.alloc(), host, 5, (rows, 0, Twist::Fine), &path, 8)?);
    Ok(())
}

// Which volumes of a chain of 3 over a merged one may be merged: base, top, and the refusal's number and values.
const SUBCHAINS: [(u8, u8, super::Told); 6] = [
    (1, 3, OPEN),
    (3, 4, OPEN),
    (9, 8, (60, 9, 0, "")),
    (1, 8, (60, 8, 0, "")),
    (1, 4, (67, 4, 3, "")),
    (1, 2, (64, 0, 0, "")),
];

#[test]
fn subchains_are_told(rt: HostRuntime) -> Result<(), Fail> {
    let host = HostId::new(1).ok_or("no host")?;
    let rows = [
        BASE,
        (2, 1, Merged, Cow, 8),
        (3, 2, Legal, Cow, 8),
        (4, 3, Legal, Cow, 8),
    ];
    let mut disk = image_on(rt.alloc(), 5, (&rows, 0, Twist::Fine), Vec::new(rt.alloc()))?;
    let (_, _, chain) = open(rt.alloc(), &mut disk, host, 5)?;
    let chain = chain.ok_or("not opened")?;
    for (base, top, want) in SUBCHAINS {
        let got = match chain.subchain(id(base), id(top)) {
            Ok(subchain) => {
                assert!(rt; number(&subchain.base) == base && number(&subchain.top) == top);
                OPEN
            }
            Err(refusal) => told(&refusal),
        };
        assert_eq!(rt; got, want, "{top} into {base}");
    }
    Ok(())
}
