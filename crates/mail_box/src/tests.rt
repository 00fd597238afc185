use super::*;
use sd_names::Id;

// A request for a length of 1,376,256 bytes with mark 7.
const REQUEST: [u8; 64] = [
    0x78, 0x74, 0x6e, 0x64, 0, 0, 0, 0, 0, 0, 0, 0, 0, 0, 0x40, 0, 0x80, 0, 0, 0, 0, 0, 0, 3, 0, 0,
    0, 0, 0, 0, 0x40, 0, 0x80, 0, 0, 0, 0, 0, 1, 2, 0, 0, 0, 0, 0, 0x15, 0, 0, 0, 0, 0, 7, 0, 0, 0,
    0, 0, 0, 0, 0, 0, 0, 0, 0,
];

// The SHA-1 of that slot and 62 slots of zeros, as python3's hashlib gives it.
const DIGEST: [u8; 20] = [
    0xfa, 0x47, 0xb1, 0xab, 0xc0, 0x16, 0x14, 0xa4, 0x4a, 0x9e, 0xaa, 0xcd, 0x6b, 0x23, 0x2c, 0x4e,
    0x9e, 0x62, 0x7a, 0xfa,
];

fn request() -> Message {
    Message {
        status: 0,
        image: Id([0, 0, 0, 0, 0, 0, 0x40, 0, 0x80, 0, 0, 0, 0, 0, 0, 3]),
        volume: Id([0, 0, 0, 0, 0, 0, 0x40, 0, 0x80, 0, 0, 0, 0, 0, 1, 2]),
        length: 1376256,
        mark: 7,
    }
}

#[test]
fn slots_of_messages(rt: HostRuntime) {
    let mut slot = [9; 64];
    request().write(&mut slot);
    assert!(rt; slot == REQUEST);
    assert!(rt; Message::read(&slot) == Some(request()));
    // A place in the slot, another byte there, and whether the slot still has a message.
    let cases = [
        (0, 0x79, false),
        (3, 0, false),
        (4, 1, true),
        (4, 2, true),
        (4, 3, false),
        (5, 1, false),
        (7, 1, false),
        (23, 4, true),
        (40, 0xff, true),
        (51, 0, true),
        (52, 1, false),
        (63, 1, false),
    ];
    for (place, byte, found) in cases {
        let mut other = REQUEST;
        other[place % 64] = byte;
        assert_eq!(rt; Message::read(&other).is_some(), found, "{place}");
    }
}

#[test]
fn a_sealed_box(rt: HostRuntime) {
    let mut mailbox = Mailbox::from_bytes([0; 4096]);
    assert_eq!(rt; mailbox.first_empty(), Some(0));
    assert!(rt; !mailbox.is_sealed());
    request().write(mailbox.slot_mut(0));
    assert_eq!(rt; mailbox.first_empty(), Some(1));
    mailbox.slot_mut(1)[63] = 1;
    assert_eq!(rt; mailbox.first_empty(), Some(2));
    mailbox.slot_mut(1)[63] = 0;
    assert_eq!(rt; mailbox.messages().count(), 0);
    mailbox.seal();
    assert!(rt; mailbox.is_sealed());
    assert_eq!(rt; mailbox.messages().count(), 1);
    assert!(rt; *mailbox.slot(0) == REQUEST);
    assert!(rt; mailbox.slot(63)[..20] == DIGEST[..]);
    assert!(rt; mailbox.bytes()[4052..] == [0; 44][..]);
}

#[test]
fn a_full_box(rt: HostRuntime) {
    let mut mailbox = Mailbox::from_bytes([0; 4096]);
    for mark in 0..63 {
        let message = Message { mark, ..request() };
        message.write(mailbox.slot_mut(mark as usize));
    }
    assert_eq!(rt; mailbox.first_empty(), None);
    mailbox.seal();
    let mut wanted = 0;
    for (slot, message) in mailbox.messages() {
        assert_eq!(rt; slot, wanted);
        assert_eq!(rt; message.mark as usize, wanted);
        wanted = wanted.min(62) + 1;
    }
    assert_eq!(rt; wanted, 63);
    let sealed = *mailbox.bytes();
    for place in [0, 62 * 64 + 51, 63 * 64, 4095] {
        let mut bytes = sealed;
        bytes[place % 4096] ^= 1;
        let changed = Mailbox::from_bytes(bytes);
        assert!(rt; !changed.is_sealed());
        assert_eq!(rt; changed.messages().count(), 0);
    }
}
