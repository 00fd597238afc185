// The texts of a volume.
use sd_names::Id;
use std::alloc::{AllocError, Global};
use volume_meta::{next_generation, read, write_into};

const SD: Id = Id([0, 0, 0, 0, 0, 0, 0x40, 0, 0x80, 0, 0, 0, 0, 0, 0, 2]);

const IMAGE: Id = Id([0, 0, 0, 0, 0, 0, 0x40, 0, 0x80, 0, 0, 0, 0, 0, 0, 3]);

// A text of version 5, of 254 bytes.
const FIVE: &str =
    "CAP=1073741824\nCTIME=1700000000\nDESCRIPTION=disk\nDISKTYPE=DATA\nDOMAIN=00000000-0000-4000-8000-000000000002\nFORMAT=RAW\nGEN=0\nIMAGE=00000000-0000-4000-8000-000000000003\nLEGALITY=LEGAL\nPUUID=00000000-0000-0000-0000-000000000000\nTYPE=SPARSE\nVOLTYPE=LEAF\nEOF\n";

// The same volume in version 4.
const FOUR: &str =
    "CTIME=1700000000\nDESCRIPTION=disk\nDISKTYPE=DATA\nDOMAIN=00000000-0000-4000-8000-000000000002\nFORMAT=RAW\nGEN=0\nIMAGE=00000000-0000-4000-8000-000000000003\nLEGALITY=LEGAL\nMTIME=0\nPUUID=00000000-0000-0000-0000-000000000000\nSIZE=2097152\nTYPE=SPARSE\nVOLTYPE=LEAF\nEOF\n";

// What reading a text answers: the word of its fault, or nothing where it gives a record.
fn word_of(alloc: Global, version: u8, text: &[u8]) -> &'static str {
    match read(alloc, version, SD, IMAGE, text) {
        Ok(_) => "",
        Err(fault) => fault.word(),
    }
}

#[test]
fn texts_are_written_as_they_were_read(rt: HostRuntime) {
    assert_eq!(rt; FIVE.len(), 254);
    for (version, text) in [(5, FIVE), (4, FOUR)] {
        match read(rt.alloc(), version, SD, IMAGE, text.as_bytes()) {
            Ok(volume) => {
                assert_eq!(rt; volume.capacity, 1073741824);
                assert_eq!(rt; volume.ctime, 1700000000);
                assert!(rt; volume.description.as_slice() == b"disk".as_slice());
                assert!(rt; volume.parent == Id::ZERO);
                let mut into = [0; 8192];
                let len = write_into(version, &volume, &mut into);
                assert_eq!(rt; len, text.len());
                assert!(rt; &into[..len.min(8192)] == text.as_bytes());
            }
            Err(_) => assert!(rt; false),
        }
    }
    assert_eq!(rt; next_generation(998), 999);
    assert_eq!(rt; next_generation(999), 0);
}

// Each line taken away, and what is then missing: nothing where the key has a default.
#[test]
fn missing_keys(rt: HostRuntime) -> Result<(), AllocError> {
    for (version, text) in [(5, FIVE), (4, FOUR)] {
        for gone in text.lines() {
            let mut left = Vec::new(rt.alloc());
            for line in text.lines() {
                if line != gone {
                    left.extend_from_slice(line.as_bytes())?;
                    left.extend_from_slice(b"\n")?;
                }
            }
            let key = gone.split_once('=').map_or("NoEof", |parts| parts.0);
            let optional = ["CTIME", "DESCRIPTION", "DISKTYPE", "GEN", "MTIME"].contains(&key);
            let want = if optional { "" } else { key };
            assert_eq!(rt; word_of(rt.alloc(), version, &left), want);
        }
    }
    Ok(())
}

// Lines before the text, since the last value of a key counts only where it stands last, and behind it.
#[test]
fn other_faults(rt: HostRuntime) -> Result<(), AllocError> {
    let cases = [
        ("MERGED=TRUE", "MERGED"),
        ("CAP=513", "CAP"),
        ("CAP=1099511628288", "CAP"),
        ("GEN=1000", "GEN"),
        ("GEN=0999", ""),
        ("DISKTYPE=", "DISKTYPE"),
        ("DOMAIN=00000000-0000-4000-8000-000000000003", "DOMAIN"),
        ("FORMAT=raw", "FORMAT"),
        ("SEQ=3", ""),
        ("MTIME=x", ""),
        ("CAP=1\nmiddle", "BadLine"),
        ("VOLTYPE=\nCTIME=-1", "CTIME"),
        ("EOF\nmiddle", ""),
    ];
    for (line, want) in cases {
        let mut text = Vec::new(rt.alloc());
        text.extend_from_slice(FIVE.trim_end_matches("EOF\n").as_bytes())?;
        text.extend_from_slice(line.as_bytes())?;
        text.extend_from_slice(b"\nEOF\n")?;
        assert_eq!(rt; word_of(rt.alloc(), 5, &text), want, "{line}");
    }
    Ok(())
}

// A text of 8,192 bytes, and one of a byte more.
#[test]
fn long_texts(rt: HostRuntime) -> Result<(), AllocError> {
    for (len, want) in [(8192, ""), (8193, "TooLong")] {
        let mut text = Vec::new(rt.alloc());
        text.extend_from_slice(b"SEQ=")?;
        for _ in 0..len - 259 {
            text.push(b'x')?;
        }
        text.extend_from_slice(b"\n")?;
        text.extend_from_slice(FIVE.as_bytes())?;
        assert_eq!(rt; text.len(), len);
        assert_eq!(rt; word_of(rt.alloc(), 5, &text), want);
    }
    Ok(())
}
