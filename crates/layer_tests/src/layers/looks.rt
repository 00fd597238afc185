// The look-up of clusters.
use super::{GIB, disk_with, lay, lay_number, look, open_layer, over_raw, small};
use qcow_format::Entry;
use qcow_layer::Looked;
use sd_names::HostId;
use std::test::Fail;

// An L2 table at 262,144 with data, nothing, zeros without a place and with one, and data whose entry has no bit 63.
#[test]
fn each_entry(rt: HostRuntime) -> Result<(), Fail> {
    let host = HostId::new(1).ok_or("no host")?;
    let mut file = over_raw(rt.alloc())?;
    lay(&mut file, 131_080, &[0, 1, 0, 1, 0, 1, 0, 1]);
    lay_number(&mut file, 196_608, 8, 0x8000_0000_0004_0000);
    lay_number(&mut file, 262_144, 8, 0x8000_0000_0005_0000);
    lay_number(&mut file, 262_160, 8, 1);
    lay_number(&mut file, 262_168, 8, 0x8000_0000_0006_0001);
    lay_number(&mut file, 262_176, 8, 0x7_0000);
    let mut disk = disk_with(rt.alloc(), u64::MAX, &file)?;
    let rows = [
        (0, Entry::Data(327_680), true),
        (1, Entry::Absent, true),
        (2, Entry::Zero(0), true),
        (3, Entry::Zero(393_216), true),
        (4, Entry::Data(458_752), true),
        (8191, Entry::Absent, true),
        // The second L1 entry names no table, and there is no third one.
        (8192, Entry::Absent, false),
        (16_384, Entry::Absent, false),
        (u64::MAX, Entry::Absent, false),
    ];
    match open_layer(rt.alloc(), &mut disk, host, GIB) {
        Ok(layer) => {
            let mut layer = layer;
            for (cluster, entry, table) in rows {
                assert!(rt;
                    look(&mut disk, host, &mut layer, cluster) == Some(Looked { entry, table }),
                    "{cluster}"
                );
            }
        }
        Err(_) => assert!(rt; false),
    }
    Ok(())
}

// Two tables of clusters of 4,096 bytes.
#[test]
fn version_2(rt: HostRuntime) -> Result<(), Fail> {
    let host = HostId::new(1).ok_or("no host")?;
    let file = small(rt.alloc())?;
    let mut disk = disk_with(rt.alloc(), u64::MAX, &file)?;
    let rows = [
        (0, Entry::Data(28_672), true),
        (1, Entry::Absent, true),
        (512, Entry::Absent, true),
        (1023, Entry::Data(24_576), true),
        (1024, Entry::Absent, false),
    ];
    match open_layer(rt.alloc(), &mut disk, host, 4_194_304) {
        Ok(layer) => {
            let mut layer = layer;
            for (cluster, entry, table) in rows {
                assert!(rt;
                    look(&mut disk, host, &mut layer, cluster) == Some(Looked { entry, table }),
                    "{cluster}"
                );
            }
        }
        Err(_) => assert!(rt; false),
    }
    Ok(())
}
