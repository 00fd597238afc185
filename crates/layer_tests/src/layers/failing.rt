// A disk that fails in each call of an opening and of a look-up, and a file that isn't there.
use super::{Outcome, disk_with, look, open_layer, small, told};
use memory_disk::Memory;
use qcow_format::Entry;
use qcow_layer::Looked;
use sd_names::HostId;
use std::test::Fail;

// The calls of an opening: the file's length, its head, 8 sectors of the refcount table, two for the count of its block, the
// sector of the L1 table, two times the 8 sectors of a table that it names; then the counts, a sector of the refcount table
// and 7 of the block for the 1,664 clusters of the map.
const CALLS: u64 = 37;

#[test]
fn a_fault_in_each_call(rt: HostRuntime) -> Result<(), Fail> {
    let host = HostId::new(1).ok_or("no host")?;
    let file = small(rt.alloc())?;
    for call in 0..CALLS {
        let mut disk = disk_with(rt.alloc(), call, &file)?;
        assert!(rt;
            told(open_layer(rt.alloc(), &mut disk, host, 4_194_304)) == Outcome::Refused(120),
            "call {call}"
        );
        // The fault is over.
        assert!(rt;
            told(open_layer(rt.alloc(), &mut disk, host, 4_194_304)) == Outcome::Opened,
            "after call {call}"
        );
    }
    Ok(())
}

// The two calls of a look-up come behind those of the opening.
#[test]
fn a_fault_in_a_look_up(rt: HostRuntime) -> Result<(), Fail> {
    let host = HostId::new(1).ok_or("no host")?;
    let file = small(rt.alloc())?;
    for (call, fails) in [(CALLS, true), (CALLS + 1, true), (CALLS + 2, false)] {
        let mut disk = disk_with(rt.alloc(), call, &file)?;
        let want = if fails {
            None
        } else {
            Some(Looked {
                entry: Entry::Data(28_672),
                table: true,
            })
        };
        match open_layer(rt.alloc(), &mut disk, host, 4_194_304) {
            Ok(layer) => {
                let mut layer = layer;
                assert!(rt; look(&mut disk, host, &mut layer, 0) == want, "call {call}");
            }
            Err(_) => assert!(rt; false),
        }
    }
    Ok(())
}

#[test]
fn no_file(rt: HostRuntime) -> Result<(), Fail> {
    let host = HostId::new(1).ok_or("no host")?;
    let mut disk = Memory::new(rt.alloc(), Vec::new(rt.alloc()), Vec::new(rt.alloc()), 0)?;
    assert!(rt; told(open_layer(rt.alloc(), &mut disk, host, 512)) == Outcome::Refused(122));
    Ok(())
}
