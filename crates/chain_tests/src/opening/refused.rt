// Images that can't be opened: why, by number and values, and each file as before.
use super::{
    Cow, Illegal, Legal, Merged, Raw, Told, Twist, Volumes, are_same_files, image_on, open,
};
use crate::images::Row;
use sd_names::HostId;
use std::test::Fail;

// So many LEGAL layers over each other, above a raw volume: 1 is the base.
pub fn line(count: usize) -> [Row; 33] {
    let mut rows = [(0, 0, Legal, Cow, 8); 33];
    for (n, row) in rows.iter_mut().enumerate() {
        if n < count {
            row.0 = n as u8 + 1;
            row.1 = n as u8;
        }
    }
    rows[0].3 = Raw;
    rows
}

const BASE: Row = (1, 0, Legal, Raw, 8);

const REFUSED: [(Volumes, Told); 16] = [
    // a text that doesn't read, before a file that isn't there
    (
        (&[BASE, (2, 1, Legal, Cow, 8)], 2, Twist::CutText),
        (65, 2, 0, "NoEof"),
    ),
    // a missing file, also that of a volume that isn't on the path
    (
        (&[BASE, (2, 1, Legal, Cow, 8)], 1, Twist::NoFile),
        (60, 1, 0, ""),
    ),
    (
        (
            &[BASE, (2, 1, Legal, Cow, 8), (3, 2, Merged, Cow, 8)],
            3,
            Twist::NoFile,
        ),
        (60, 3, 0, ""),
    ),
    // a parent that isn't there, before a ring
    (
        (
            &[BASE, (2, 9, Legal, Cow, 8), (3, 3, Illegal, Cow, 8)],
            0,
            Twist::Fine,
        ),
        (67, 2, 9, ""),
    ),
    // rings: of one volume, and of two
    (
        (&[BASE, (2, 2, Legal, Cow, 8)], 0, Twist::Fine),
        (68, 0, 0, ""),
    ),
    (
        (
            &[BASE, (2, 3, Legal, Cow, 8), (3, 2, Legal, Cow, 8)],
            0,
            Twist::Fine,
        ),
        (68, 0, 0, ""),
    ),
    // a raw volume with a parent
    (
        (&[BASE, (2, 1, Legal, Raw, 8)], 0, Twist::Fine),
        (65, 2, 0, "FORMAT"),
    ),
    // a capacity below its parent's
    (
        (&[BASE, (2, 1, Legal, Cow, 7)], 0, Twist::Fine),
        (65, 2, 0, "CAP"),
    ),
    // no reading volume: none that is LEGAL, and two branches
    ((&[(1, 0, Illegal, Raw, 8)], 0, Twist::Fine), (57, 0, 0, "")),
    (
        (
            &[BASE, (2, 1, Legal, Cow, 8), (3, 1, Legal, Cow, 8)],
            0,
            Twist::Fine,
        ),
        (57, 0, 0, ""),
    ),
    // headers that name another volume, none, and one where there is none
    (
        (
            &[BASE, (2, 1, Legal, Cow, 8), (3, 2, Legal, Cow, 8)],
            3,
            Twist::Names(1),
        ),
        (67, 3, 1, ""),
    ),
    (
        (&[BASE, (2, 1, Legal, Cow, 8)], 2, Twist::Names(0)),
        (67, 2, 0, ""),
    ),
    (
        (&[(1, 0, Legal, Cow, 8)], 1, Twist::Names(7)),
        (67, 1, 7, ""),
    ),
    // a compressed entry
    (
        (&[BASE, (2, 1, Legal, Cow, 8)], 2, Twist::Compressed),
        (80, 2, 262_144, "Compressed"),
    ),
    // one in the layer between
    (
        (
            &[
                (1, 0, Legal, Cow, 8),
                (2, 1, Legal, Cow, 8),
                (3, 2, Legal, Cow, 9),
            ],
            2,
            Twist::Compressed,
        ),
        (80, 2, 262_144, "Compressed"),
    ),
    // no volumes
    ((&[], 0, Twist::Fine), (122, 0, 0, "")),
];

// Every other image is one of version 4.
#[test]
fn images_are_refused(rt: HostRuntime) -> Result<(), Fail> {
    let host = HostId::new(1).ok_or("no host")?;
    let mut version = 4;
    for (volumes, want) in REFUSED {
        version = if version == 4 { 5 } else { 4 };
        let mut disk = image_on(rt.alloc(), version, volumes, Vec::new(rt.alloc()))?;
        let before = image_on(rt.alloc(), version, volumes, Vec::new(rt.alloc()))?;
        let (got, _, _) = open(rt.alloc(), &mut disk, host, version)?;
        assert_eq!(rt; got, want, "{volumes:?}");
        assert!(rt; are_same_files(&disk, &before, volumes.0), "{volumes:?}");
    }
    Ok(())
}

// Their number comes before what their texts say: each but one is raw and has a parent.
#[test]
fn too_many_volumes_are_refused(rt: HostRuntime) -> Result<(), Fail> {
    let host = HostId::new(1).ok_or("no host")?;
    let mut rows = line(33);
    for row in rows.iter_mut() {
        row.3 = Raw;
    }
    let volumes: Volumes = (&rows, 0, Twist::Fine);
    let mut disk = image_on(rt.alloc(), 5, volumes, Vec::new(rt.alloc()))?;
    let before = image_on(rt.alloc(), 5, volumes, Vec::new(rt.alloc()))?;
    let (got, _, _) = open(rt.alloc(), &mut disk, host, 5)?;
    assert_eq!(rt; got, (68, 0, 33, ""));
    assert!(rt; are_same_files(&disk, &before, &rows));
    Ok(())
}
