// Images in short: a row for each volume.
use chain_records::{Volume, VolumeRecords};
use sd_names::{AllocKind, Bytes, Format, Id, Legality, NoMemory, VolType};
use std::alloc::Global;
use volume_meta::VolumeRecord;

// What a volume may be.
#[derive(Clone, Copy, Debug, PartialEq, Eq)]
pub enum State {
    Legal,
    Illegal,
    Merged,
}

// A volume: its number, that of its parent, or 0, its state, its format, and its capacity in sectors.
pub type Row = (u8, u8, State, Format, u64);

// The volume of a number: zeros for 0.
pub fn id(number: u8) -> Id {
    let mut bytes = [0; 16];
    bytes[15] = number;
    Id(bytes)
}

// What the text of a volume says, without a disk type.
pub fn record(alloc: Global, row: &Row) -> VolumeRecord {
    VolumeRecord {
        capacity: row.4.saturating_mul(512),
        ctime: 0,
        description: Bytes::new(alloc),
        disk_type: Bytes::new(alloc),
        domain: id(200),
        format: row.3,
        generation: 0,
        image: id(201),
        legality: if row.2 == State::Legal {
            Legality::Legal
        } else {
            Legality::Illegal
        },
        merged: row.2 == State::Merged,
        parent: id(row.1),
        kind: AllocKind::Sparse,
        voltype: VolType::Leaf,
    }
}

// The records of these volumes, 32 at most, each with its file, but for the volume of the number `missing`.
pub fn records(alloc: Global, rows: &[Row], missing: u8) -> Result<VolumeRecords, NoMemory> {
    let mut records = VolumeRecords::new(alloc)?;
    for row in rows {
        if records.len() < 32 {
            records.push(Volume {
                id: id(row.0),
                meta: record(alloc, row),
                has_file: row.0 != missing,
            });
        }
    }
    Ok(records)
}

// The number of a volume.
pub fn number(id: &Id) -> u8 {
    id.0[15]
}
