// A disk that fails in a call of an opening.
use super::{Cow, Legal, OPEN, Raw, Told, Twist, Volumes, are_same_files, image_on, open};
use crate::images::Row;
use sd_names::HostId;
use std::test::Fail;

const BASE: Row = (1, 0, Legal, Raw, 8);

const FAULT: Told = (120, 0, 0, "");

// Images, a call that fails, and what the opening comes to. The gathering takes four calls for each volume, one for the end
// of the names, and one for each text.
const FAULTS: [(&[Row], u64, Told); 15] = [
    // the listing, the syncs, the text, the raw volume's length, and none
    (&[BASE], 0, FAULT),
    (&[BASE], 1, FAULT),
    (&[BASE], 2, FAULT),
    (&[BASE], 3, FAULT),
    (&[BASE], 4, FAULT),
    (&[BASE], 5, FAULT),
    (&[BASE], 6, FAULT),
    (&[BASE], 7, OPEN),
    // the texts of two volumes, the layer's length and header, its tables, and none
    (&[BASE, (2, 1, Legal, Cow, 8)], 9, FAULT),
    (&[BASE, (2, 1, Legal, Cow, 8)], 10, FAULT),
    (&[BASE, (2, 1, Legal, Cow, 8)], 11, FAULT),
    (&[BASE, (2, 1, Legal, Cow, 8)], 12, FAULT),
    (&[BASE, (2, 1, Legal, Cow, 8)], 13, FAULT),
    (&[BASE, (2, 1, Legal, Cow, 8)], 140, FAULT),
    (&[BASE, (2, 1, Legal, Cow, 8)], 100_000, OPEN),
];

#[test]
fn faults_end_an_opening(rt: HostRuntime) -> Result<(), Fail> {
    let host = HostId::new(1).ok_or("no host")?;
    for (rows, failing, want) in FAULTS {
        let volumes: Volumes = (rows, 0, Twist::Fine);
        let mut list = Vec::new(rt.alloc());
        list.push(failing)?;
        let mut disk = image_on(rt.alloc(), 5, volumes, list)?;
        let before = image_on(rt.alloc(), 5, volumes, Vec::new(rt.alloc()))?;
        let (got, _, _) = open(rt.alloc(), &mut disk, host, 5)?;
        assert_eq!(rt; got, want, "call {failing}");
        assert!(rt; are_same_files(&disk, &before, rows), "call {failing}");
    }
    Ok(())
}
