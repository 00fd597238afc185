ghost use Rattle.qcow_format.specs.Written.{HasRoom};

use super::*;
use sd_names::{Format, Id, LayerFault};
use std::alloc::{AllocError, Global};
use std::test::Fail;

// The first bytes of a layer of 1 GiB over a raw volume: version 3, clusters of 65,536 bytes, a backing format at 104,
// and the name of the backing file, 36 bytes, at 64,512.
const FIRST: [u8; 128] = [
    0x51, 0x46, 0x49, 0xfb, 0x00, 0x00, 0x00, 0x03, 0x00, 0x00, 0x00, 0x00, 0x00, 0x00, 0xfc, 0x00,
    0x00, 0x00, 0x00, 0x24, 0x00, 0x00, 0x00, 0x10, 0x00, 0x00, 0x00, 0x00, 0x40, 0x00, 0x00, 0x00,
    0x00, 0x00, 0x00, 0x00, 0x00, 0x00, 0x00, 0x02, 0x00, 0x00, 0x00, 0x00, 0x00, 0x03, 0x00, 0x00,
    0x00, 0x00, 0x00, 0x00, 0x00, 0x01, 0x00, 0x00, 0x00, 0x00, 0x00, 0x01, 0x00, 0x00, 0x00, 0x00,
    0x00, 0x00, 0x00, 0x00, 0x00, 0x00, 0x00, 0x00, 0x00, 0x00, 0x00, 0x00, 0x00, 0x00, 0x00, 0x00,
    0x00, 0x00, 0x00, 0x00, 0x00, 0x00, 0x00, 0x00, 0x00, 0x00, 0x00, 0x00, 0x00, 0x00, 0x00, 0x00,
    0x00, 0x00, 0x00, 0x04, 0x00, 0x00, 0x00, 0x68, 0xe2, 0x79, 0x2a, 0xca, 0x00, 0x00, 0x00, 0x03,
    0x72, 0x61, 0x77, 0x00, 0x00, 0x00, 0x00, 0x00, 0x00, 0x00, 0x00, 0x00, 0x00, 0x00, 0x00, 0x00,
];

const NAME: [u8; 36] = *b"00000000-0000-4000-8000-000000000101";

const GIB: u64 = 1 << 30;

// Lays bytes over a head from a place on.
fn lay(head: &mut Vec<u8>, at: usize, bytes: &[u8]) {
    if at <= head.len() && bytes.len() <= head.len() - at {
        head[at..at + bytes.len()].copy_from_slice(bytes);
    }
}

// The head of that layer.
fn layer(alloc: Global) -> Result<Vec<u8>, AllocError> {
    let mut head = vec![in alloc; 0; 65_536]?;
    lay(&mut head, 0, &FIRST);
    lay(&mut head, 64_512, &NAME);
    Ok(head)
}

// The header of that layer.
fn header() -> Header
    ensures { HasRoom result }
{
    Header {
        magic: MAGIC,
        version: 3,
        backing_file_offset: 64_512,
        backing_file_size: 36,
        cluster_bits: 16,
        size: GIB,
        crypt_method: 0,
        l1_size: 2,
        l1_table_offset: 196_608,
        refcount_table_offset: 65_536,
        refcount_table_clusters: 1,
        nb_snapshots: 0,
        snapshots_offset: 0,
        incompatible_features: 0,
        compatible_features: 0,
        autoclear_features: 0,
        refcount_order: 4,
        header_length: 104,
        name: (64_512, 36),
        format_at: Some(104),
        format: Some(Format::Raw),
    }
}

#[test]
fn reads_the_vector(rt: HostRuntime) -> Result<(), Fail> {
    let head = layer(rt.alloc())?;
    assert!(rt; Header::read(&head) == Ok(header()));
    assert!(rt; Header::read(&FIRST) == Err(LayerFault::Short));
    Ok(())
}

#[test]
fn writes_the_vector(rt: HostRuntime) {
    let mut first = [0u8; 512];
    header().write(&mut first);
    assert!(rt; first.as_slice().starts_with(FIRST.as_slice()));
    assert_eq!(rt; first[511], 0);
}

// A head as qemu-img 7 writes it: 112 bytes of header, a backing format, a feature name table of 384 bytes, the closing
// mark at 520 and the name at 528.
fn qemu_head(alloc: Global) -> Result<Vec<u8>, AllocError> {
    let mut head = vec![in alloc; 0; 65_536]?;
    lay(&mut head, 0, &FIRST);
    lay(&mut head, 14, &[2, 0x10]);
    lay(&mut head, 103, &[112, 0, 0, 0, 0, 0, 0, 0, 0]);
    lay(&mut head, 112, b"\xe2\x79\x2a\xca\0\0\0\x05qcow2\0\0\0");
    lay(&mut head, 128, b"\x68\x03\xf8\x57\0\0\x01\x80\0\0dirty bit");
    lay(&mut head, 528, &NAME);
    Ok(head)
}

// The same at clusters of 4,096 bytes, where there is no feature name table.
fn small_qemu_head(alloc: Global) -> Result<Vec<u8>, AllocError> {
    let mut head = qemu_head(alloc)?;
    lay(&mut head, 14, &[0, 136]);
    lay(&mut head, 23, &[12, 0, 0, 0, 0, 0, 0x40, 0, 0]);
    lay(&mut head, 128, &[0; 8]);
    lay(&mut head, 136, &NAME);
    Ok(head)
}

#[test]
fn reads_what_qemu_img_writes(rt: HostRuntime) -> Result<(), Fail> {
    let read = Header::read(&qemu_head(rt.alloc())?)
        .ok()
        .ok_or("it is a header")?;
    assert_eq!(rt; read.name, (528, 36));
    assert_eq!(rt; read.format_at, Some(112));
    assert!(rt; read.format == Some(Format::Cow));
    let small = Header::read(&small_qemu_head(rt.alloc())?)
        .ok()
        .ok_or("it is a header too")?;
    assert_eq!(rt; small.name, (136, 36));
    Ok(())
}

// The identifier of the backing file, where the head has a header.
fn backing(head: &[u8]) -> Option<Option<Id>> {
    match Header::read(head) {
        Ok(header) => Some(backing_id(&header, head)),
        Err(_) => None,
    }
}

#[test]
fn reads_the_backing_files_identifier(rt: HostRuntime) -> Result<(), Fail> {
    let id = Id::read(&NAME);
    let mut head = layer(rt.alloc())?;
    assert!(rt; backing(&head) == Some(id));
    lay(&mut head, 14, &[0xfb, 0xf6, 0, 0, 0, 46]);
    lay(&mut head, 64_502, b"../images/");
    assert!(rt; backing(&head) == Some(id));
    lay(&mut head, 64_548, b"0");
    lay(&mut head, 19, &[47]);
    assert!(rt; backing(&head).is_none());
    lay(&mut head, 8, &[0; 8]);
    assert!(rt; backing(&head) == Some(None));
    Ok(())
}

#[test]
fn lends_extensions(rt: HostRuntime) -> Result<(), Fail> {
    let head = qemu_head(rt.alloc())?;
    let mut all = extensions(&head);
    let format = all.next().ok_or("a backing format stands first")?;
    assert_eq!(rt; format.kind, BACKING_FORMAT);
    assert_eq!(rt; format.body, b"qcow2".as_slice());
    let table = all.next().ok_or("a feature name table stands second")?;
    assert_eq!(rt; table.kind, 0x6803_f857);
    assert_eq!(rt; table.body.len(), 384);
    assert!(rt; all.next().is_none());
    Ok(())
}

// Version 2 has 72 bytes and none of the later fields: what stands in their place is extensions.
#[test]
fn reads_version_2(rt: HostRuntime) -> Result<(), Fail> {
    let mut head = layer(rt.alloc())?;
    lay(&mut head, 7, &[2]);
    lay(&mut head, 72, b"\xe2\x79\x2a\xca\0\0\0\x03raw\0\0\0\0\0");
    let read = Header::read(&head).ok().ok_or("it is a header")?;
    assert_eq!(rt; read.header_length, 72);
    assert_eq!(rt; read.refcount_order, 4);
    assert_eq!(rt; read.format_at, Some(72));
    Ok(())
}

// What comes where two bytes of the layer's head are changed.
fn fault(
    alloc: Global,
    at: usize,
    byte: u8,
    then: usize,
    other: u8,
) -> Result<Option<LayerFault>, AllocError> {
    let mut head = layer(alloc)?;
    lay(&mut head, at, &[byte]);
    lay(&mut head, then, &[other]);
    Ok(Header::read(&head).err())
}

#[test]
fn gives_each_fault(rt: HostRuntime) -> Result<(), Fail> {
    let rows = [
        (0, 0x50, LayerFault::Magic),
        (7, 4, LayerFault::Version),
        (23, 11, LayerFault::Bits),
        (23, 22, LayerFault::Bits),
        (35, 1, LayerFault::Encrypted),
        (60, 1, LayerFault::Snapshots),
        (79, 0b10100, LayerFault::Feature(2)),
        (72, 0x80, LayerFault::Feature(63)),
        (99, 5, LayerFault::RefcountOrder),
        (39, 1, LayerFault::Size(GIB)),
    ];
    for (at, byte, want) in rows {
        assert!(rt;
            fault(rt.alloc(), at, byte, at, byte)? == Some(want),
            "at {at}"
        );
    }
    Ok(())
}

// The header's length too small, off 8 bytes and past the head; an extension past the head, by a length that 32 bits
// just hold; another format, and a longer text; a name too long, past the head and one byte short, and one that is no
// identifier; tables off the clusters.
#[test]
fn refuses_other_shapes(rt: HostRuntime) -> Result<(), Fail> {
    let rows = [
        (103, 96),
        (103, 105),
        (101, 1),
        (108, 0xff),
        (112, b'R'),
        (111, 4),
        (18, 4),
        (8, 0xff),
        (19, 35),
        (64_520, b'0'),
        (64_512, b'g'),
        (46, 2),
        (55, 1),
    ];
    for (at, byte) in rows {
        assert!(rt;
            fault(rt.alloc(), at, byte, at, byte)? == Some(LayerFault::HeaderShape),
            "at {at}"
        );
    }
    Ok(())
}

#[test]
fn gives_the_first_of_two_faults(rt: HostRuntime) -> Result<(), Fail> {
    let alloc = rt.alloc();
    assert!(rt; fault(alloc, 0, 0, 7, 9)? == Some(LayerFault::Magic));
    assert!(rt; fault(alloc, 23, 9, 35, 1)? == Some(LayerFault::Bits));
    assert!(rt; fault(alloc, 79, 1, 99, 3)? == Some(LayerFault::Feature(0)));
    assert!(rt; fault(alloc, 39, 1, 46, 2)? == Some(LayerFault::HeaderShape));
    Ok(())
}

// Whether the layer's head is read with its name at another place.
fn reads_name(alloc: Global, at: u16) -> Result<bool, AllocError> {
    let mut head = layer(alloc)?;
    lay(&mut head, 14, &at.to_be_bytes());
    lay(&mut head, at as usize, &NAME);
    Ok(Header::read(&head).is_ok())
}

// A name may stand anywhere in the head where it doesn't touch both of the last two sectors.
#[test]
fn takes_names_where_they_may_stand(rt: HostRuntime) -> Result<(), Fail> {
    let places: [(u16, bool); 6] = [
        (128, true),
        (64_988, true),
        (64_989, false),
        (65_024, true),
        (65_500, true),
        (65_501, false),
    ];
    for (at, fine) in places {
        assert_eq!(rt; reads_name(rt.alloc(), at)?, fine, "at {at}");
    }
    Ok(())
}

#[test]
fn reads_entries(rt: HostRuntime) {
    let words = [
        (0, 3, Ok(Entry::Absent)),
        (1 << 63, 3, Ok(Entry::Absent)),
        (1, 3, Ok(Entry::Zero(0))),
        (1, 2, Err(LayerFault::MixedBits(8))),
        (0x8000_0000_0005_0001, 3, Ok(Entry::Zero(0x5_0000))),
        (0x0000_0000_0005_0000, 2, Ok(Entry::Data(0x5_0000))),
        (0x4000_0000_0005_0002, 3, Err(LayerFault::Compressed(8))),
        (0x8100_0000_0005_0000, 3, Err(LayerFault::MixedBits(8))),
    ];
    for (bits, version, want) in words {
        assert!(rt; entry_of(bits, version, 8) == want, "at {bits}");
    }
    assert!(rt; table_place(0, 24) == Ok(None));
    assert!(rt; table_place(0x8000_0000_0003_0000, 24) == Ok(Some(0x3_0000)));
    assert!(rt; table_place(0x4000_0000_0003_0000, 24) == Err(LayerFault::MixedBits(24)));
}

#[test]
fn writes_entries(rt: HostRuntime) {
    assert_eq!(rt; entry_bits(Entry::Absent), 0);
    assert_eq!(rt; entry_bits(Entry::Zero(0)), 1);
    assert_eq!(rt; entry_bits(Entry::Zero(0x5_0000)), 0x8000_0000_0005_0001);
    assert_eq!(rt; entry_bits(Entry::Data(0x5_0000)), 0x8000_0000_0005_0000);
}
