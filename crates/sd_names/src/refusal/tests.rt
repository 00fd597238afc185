use super::*;
use crate::Key;
use std::test::Fail;

const V: Id = Id([0, 0, 0, 0, 0, 0, 0x40, 0, 0x80, 0, 0, 0, 0, 0, 1, 1]);

const W: Id = Id([0, 0, 0, 0, 0, 0, 0x40, 0, 0x80, 0, 0, 0, 0, 0, 1, 2]);

// SHA-1 of `abc`, and of no bytes (FIPS 180-4).
const OF_ABC: [u8; 20] = [
    0xa9, 0x99, 0x3e, 0x36, 0x47, 0x06, 0x81, 0x6a, 0xba, 0x3e, 0x25, 0x71, 0x78, 0x50, 0xc2, 0x6c,
    0x9c, 0xd0, 0xd8, 0x9d,
];

const OF_NOTHING: [u8; 20] = [
    0xda, 0x39, 0xa3, 0xee, 0x5e, 0x6b, 0x4b, 0x0d, 0x32, 0x55, 0xbf, 0xef, 0x95, 0x60, 0x18, 0x90,
    0xaf, 0xd8, 0x07, 0x09,
];

#[test]
fn texts(rt: HostRuntime) {
    let cases = [
        (Refusal::BadLine, "10 BadLine"),
        (Refusal::BadArgument(4), "13 BadArgument 4"),
        (Refusal::NotBuilt, "14 NotBuilt"),
        (Refusal::OthersUp(250), "25 OthersUp 250"),
        (
            Refusal::DomainCorrupt(DomainFault::BadLine(3)),
            "34 DomainCorrupt BadLine 3",
        ),
        (
            Refusal::DomainCorrupt(DomainFault::MissingKey(Key::ShaCksum)),
            "34 DomainCorrupt MissingKey _SHA_CKSUM",
        ),
        (
            Refusal::DomainCorrupt(DomainFault::Checksum(OF_ABC, OF_NOTHING)),
            "34 DomainCorrupt Checksum a9993e364706816aba3e25717850c26c9cd0d89d da39a3ee5e6b4b0d3255bfef95601890afd80709",
        ),
        (Refusal::SpmHeld(1, 2), "41 SpmHeld 1 2"),
        (Refusal::LverMismatch(0, 1), "42 LverMismatch 0 1"),
        (Refusal::PrevMismatch(0, 2), "43 PrevMismatch 0 2"),
        (
            Refusal::NoVolume(V),
            "60 NoVolume 00000000-0000-4000-8000-000000000101",
        ),
        (
            Refusal::MetaCorrupt(V, VolumeFault::NoEof),
            "65 MetaCorrupt 00000000-0000-4000-8000-000000000101 NoEof",
        ),
        (
            Refusal::MetaCorrupt(V, VolumeFault::BadValue(Key::Alloc)),
            "65 MetaCorrupt 00000000-0000-4000-8000-000000000101 TYPE",
        ),
        (
            Refusal::MetaCorrupt(V, VolumeFault::BadLine(2)),
            "65 MetaCorrupt 00000000-0000-4000-8000-000000000101 BadLine",
        ),
        (
            Refusal::WrongParent(W, V),
            "67 WrongParent 00000000-0000-4000-8000-000000000102 00000000-0000-4000-8000-000000000101",
        ),
        (Refusal::OutOfRange(1536, 1024), "70 OutOfRange 1536 1024"),
        (
            Refusal::NoRoom(W, 1310720, 1376256),
            "71 NoRoom 00000000-0000-4000-8000-000000000102 1310720 1376256",
        ),
        (Refusal::Unaligned(100, 512), "72 Unaligned 100 512"),
        (
            Refusal::LayerRefused(W, LayerFault::Compressed(262144)),
            "80 LayerRefused 00000000-0000-4000-8000-000000000102 Compressed 262144",
        ),
        (
            Refusal::LayerRefused(W, LayerFault::Short),
            "80 LayerRefused 00000000-0000-4000-8000-000000000102 Short",
        ),
        (
            Refusal::DiskFault(u64::MAX),
            "120 DiskFault 18446744073709551615",
        ),
        (
            Refusal::Vanished(Absence::NotEmpty),
            "122 Vanished NotEmpty",
        ),
        (Refusal::OutOfMemory, "130 OutOfMemory"),
    ];
    for (refusal, wanted) in cases {
        let text = refusal.text();
        assert!(rt; text.as_str() == wanted, "{wanted}");
    }
}

#[test]
fn prints_and_pushes(rt: HostRuntime) -> Result<(), Fail> {
    let refusal = Refusal::LverMismatch(0, 1);
    let shown = refusal.to_string(rt.alloc())?;
    assert!(rt; shown.as_str() == "42 LverMismatch 0 1");
    let mut text = Vec::with_capacity(rt.alloc(), 200)?;
    push_all(&mut text, b"9 refused ");
    push_refusal(&mut text, &refusal);
    assert!(rt; text.as_slice() == b"9 refused 42 LverMismatch 0 1".as_slice());
    Ok(())
}
