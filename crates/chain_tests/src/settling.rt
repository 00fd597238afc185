// What settling has to change.
use crate::images::State::{Illegal, Legal, Merged};
use crate::images::{Row, id, number, records};
use sd_names::Format::{Cow, Raw};
use sd_names::{NoMemory, VolType};

// A base, two merged volumes over it, one that reads through them, and one over that which was merged into it.
const ROWS: [Row; 6] = [
    (1, 0, Legal, Raw, 8),
    (2, 1, Merged, Cow, 8),
    (3, 2, Merged, Cow, 8),
    (4, 3, Legal, Cow, 8),
    (5, 4, Merged, Cow, 8),
    (6, 1, Illegal, Cow, 8),
];

// For each volume the parent to write, the parent that counts, and the VOLTYPE: 0 stands for none.
#[test]
fn parents_and_types(rt: HostRuntime) -> Result<(), NoMemory> {
    let records = records(rt.alloc(), &ROWS, 0)?;
    for (volume, parent, up, voltype) in [
        (1, 0, 0, VolType::Internal),
        (2, 0, 1, VolType::Leaf),
        (3, 1, 1, VolType::Leaf),
        (4, 1, 1, VolType::Internal),
        (5, 0, 4, VolType::Leaf),
        (6, 0, 1, VolType::Leaf),
    ] {
        let volume = id(volume);
        assert!(rt; records.parent_to_write(&volume).map_or(0, |id| number(&id)) == parent);
        assert!(rt; records.up(&volume).map_or(0, |id| number(&id)) == up);
        assert!(rt; records.voltype_to_have(&volume) == Some(voltype));
    }
    assert!(rt; records.voltype_to_have(&id(9)).is_none());
    Ok(())
}

// LEAF is for a LEGAL volume that no volume names, an ILLEGAL one included.
#[test]
fn leaves(rt: HostRuntime) -> Result<(), NoMemory> {
    let cases: [(&[Row], u8, VolType); 4] = [
        (&[(1, 0, Legal, Raw, 8)], 1, VolType::Leaf),
        (
            &[(1, 0, Legal, Raw, 8), (2, 1, Illegal, Cow, 8)],
            1,
            VolType::Internal,
        ),
        (
            &[
                (1, 0, Legal, Raw, 8),
                (2, 1, Merged, Cow, 8),
                (3, 2, Legal, Cow, 8),
            ],
            3,
            VolType::Leaf,
        ),
        (
            &[
                (1, 0, Legal, Raw, 8),
                (2, 1, Merged, Cow, 8),
                (3, 2, Legal, Cow, 8),
            ],
            1,
            VolType::Internal,
        ),
    ];
    for (rows, volume, want) in cases {
        let records = records(rt.alloc(), rows, 0)?;
        assert!(rt; records.voltype_to_have(&id(volume)) == Some(want));
    }
    Ok(())
}

// What the header of a volume names, or 0, and what it has to be made to name, or 0.
#[test]
fn headers(rt: HostRuntime) -> Result<(), NoMemory> {
    let records = records(rt.alloc(), &ROWS, 0)?;
    for (volume, named, want) in [
        (4, 3, 1),
        (4, 1, 0),
        (4, 0, 1),
        (1, 0, 0),
        (1, 9, 0),
        (5, 4, 0),
    ] {
        let name = if named == 0 { None } else { Some(id(named)) };
        let found = records.header_to_write(&id(volume), name);
        assert!(rt; found.map_or(0, |id| number(&id)) == want);
    }
    Ok(())
}

// Once all is written there is nothing left to write, and the path is as it was.
#[test]
fn written_records(rt: HostRuntime) -> Result<(), NoMemory> {
    let mut records = records(rt.alloc(), &ROWS, 0)?;
    for number in 1..7 {
        let volume = id(number);
        if let Some(parent) = records.parent_to_write(&volume) {
            records.write_parent(&volume, parent);
        }
    }
    for number in 1..7 {
        let volume = id(number);
        assert!(rt; records.parent_to_write(&volume).is_none());
        if let Some(voltype) = records.voltype_to_have(&volume) {
            records.write_voltype(&volume, voltype);
        }
    }
    for (volume, parent, voltype) in [
        (3, 1, VolType::Leaf),
        (4, 1, VolType::Internal),
        (5, 4, VolType::Leaf),
    ] {
        let found = records.get(&id(volume));
        assert!(rt; found.is_some_and(|meta| number(&meta.parent) == parent));
        assert!(rt; found.is_some_and(|meta| meta.voltype == voltype));
    }
    assert!(rt; records.first_refusal().is_none());
    let want = [id(4), id(1)];
    let path = records.reading_path();
    assert!(rt; path.is_some_and(|path| path.as_slice() == want.as_slice()));
    Ok(())
}
