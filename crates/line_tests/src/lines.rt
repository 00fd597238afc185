// Tables of what the parts of a line say, and of printed data.
use script_lines::{Line, MAX_DATA, VerbWord, decode, event_of, push_data, take_word};
use sd_names::Refusal;
use std::alloc::{AllocError, Global};
use std::test::Fail;

#[test]
fn words(rt: HostRuntime) {
    let cases: [(&[u8], Option<(&[u8], &[u8])>); 6] = [
        (b"", None),
        (b"   ", None),
        (b"1 boot", Some((b"1", b" boot"))),
        (b"  boot  now", Some((b"boot", b"  now"))),
        (b"boot", Some((b"boot", b""))),
        (b"boot ", Some((b"boot", b" "))),
    ];
    for (line, parts) in cases {
        assert_eq!(rt; take_word(line), parts);
    }
}

/// What a word decodes to, if it is data text.
fn decoded(alloc: Global, word: &[u8]) -> Result<Option<Vec<u8>>, AllocError> {
    let mut into = vec![in alloc; 0; MAX_DATA]?;
    match decode(word, &mut into) {
        Some(count) => Ok(Some(Vec::from_slice(alloc, &into[..count])?)),
        None => Ok(None),
    }
}

// Data text, how many bytes it spells, and the first of them; none for a word that isn't data text.
#[test]
fn data_text(rt: HostRuntime) -> Result<(), Fail> {
    let cases: [(&[u8], usize, &[u8]); 25] = [
        (b"00", 1, &[0]),
        (b"aBCd", 2, &[171, 205]),
        (b"3*Ff", 3, &[255, 255, 255]),
        (b"1*00+2*41+4243", 5, &[0, 65, 65, 66, 67]),
        (b"003*01", 3, &[1, 1, 1]),
        (b"65536*41", 65536, b"AAAA"),
        (b"65535*41+42", 65536, b"AAAA"),
        (b"65536*41+42", 0, b""),
        (b"42+65536*41", 0, b""),
        (b"32768*41+32768*42+00", 0, b""),
        (b"", 0, b""),
        (b"+", 0, b""),
        (b"4", 0, b""),
        (b"414", 0, b""),
        (b"4g", 0, b""),
        (b"0*41", 0, b""),
        (b"65537*41", 0, b""),
        (b"1*4", 0, b""),
        (b"1*414", 0, b""),
        (b"1*4*1", 0, b""),
        (b"*41", 0, b""),
        (b"1*", 0, b""),
        (b"41+", 0, b""),
        (b"+41", 0, b""),
        (b"41++41", 0, b""),
    ];
    for (word, count, front) in cases {
        let bytes = decoded(rt.alloc(), word)?.unwrap_or(Vec::new(rt.alloc()));
        assert_eq!(rt; bytes.len(), count);
        assert!(rt; bytes.starts_with(front));
    }
    Ok(())
}

fn printed(alloc: Global, parts: &[(usize, u8)]) -> Result<Vec<u8>, AllocError> {
    let mut bytes = Vec::new(alloc);
    for (count, byte) in parts {
        for _ in 0..*count {
            bytes.push(*byte)?;
        }
    }
    let mut text = Vec::with_capacity(alloc, 3 * 65536)?;
    if bytes.len() <= 65536 && bytes.len() % 512 == 0 {
        push_data(&mut text, &bytes);
    }
    Ok(text)
}

#[test]
fn printed_data(rt: HostRuntime) -> Result<(), Fail> {
    let cases: [(&[(usize, u8)], &[u8]); 6] = [
        (&[], b""),
        (&[(512, 65)], b"512*41"),
        (&[(32768, 17), (32768, 34)], b"32768*11+32768*22"),
        (
            &[(512, 51), (512, 68), (64512, 0)],
            b"512*33+512*44+64512*00",
        ),
        (&[(65536, 0)], b"65536*00"),
        (
            &[(1024, 255), (512, 254), (512, 255)],
            b"1024*ff+512*fe+512*ff",
        ),
    ];
    for (parts, text) in cases {
        assert_eq!(rt; printed(rt.alloc(), parts)?.as_slice(), text);
    }
    let mixed = printed(rt.alloc(), &[(512, 17), (511, 17), (1, 171), (512, 17)])?;
    assert_eq!(rt; mixed.len(), 1038);
    assert_eq!(rt; &mixed[..9], b"512*11+11".as_slice());
    assert_eq!(rt; &mixed[1027..], b"11ab+512*11".as_slice());
    Ok(())
}

const S: &[u8] = b"00000000-0000-4000-8000-000000000002";

const I: &[u8] = b"00000000-0000-4000-8000-00000000000A";

const ZEROS: &[u8] = b"00000000-0000-0000-0000-000000000000";

/// A line in which `$`, `@` and `~` stand for whole identifiers.
fn spelled(alloc: Global, pattern: &[u8]) -> Result<Vec<u8>, AllocError> {
    let mut line = Vec::new(alloc);
    for byte in pattern {
        match byte {
            b'$' => line.extend_from_slice(S)?,
            b'@' => line.extend_from_slice(I)?,
            b'~' => line.extend_from_slice(ZEROS)?,
            _ => line.push(*byte)?,
        }
    }
    Ok(line)
}

/// The number of a line's refusal with the place of the argument at fault; 0 for a line that isn't refused, 1 for
/// one that says nothing. All verbs are built but `copy`.
fn refused(line: &[u8], room: &mut [u8; 65536]) -> (u16, u64) {
    match event_of(line, |verb| !matches!(&verb, VerbWord::Copy), room) {
        Line::Silent => (1, 0),
        Line::Refused(Refusal::BadArgument(place)) => (13, place),
        Line::Refused(refusal) => (refusal.number(), 0),
        _ => (0, 0),
    }
}

// `$` is a domain or a task, `@` an image or a volume, `~` the identifier of zeros.
#[test]
fn lines(rt: HostRuntime) -> Result<(), Fail> {
    let cases: [(&[u8], u16, u64); 96] = [
        (b"", 1, 0),
        (b"# remark", 1, 0),
        (b" ", 10, 0),
        (b" # remark", 10, 0),
        (b"0 boot", 10, 0),
        (b"251 boot", 10, 0),
        (b"1", 10, 0),
        (b"x boot", 10, 0),
        (b"1\tboot", 10, 0),
        (b"250 boot", 0, 0),
        (b"  001   boot ", 0, 0),
        (b"1 boot now", 13, 1),
        (b"1 down", 0, 0),
        (b"1 down 1", 13, 1),
        (b"1 end", 0, 0),
        (b"1 end 1", 13, 1),
        (b"1 step 1", 0, 0),
        (b"1 step 1000000", 0, 0),
        (b"1 step 1000001", 13, 1),
        (b"1 step 0", 13, 1),
        (b"1 step", 13, 1),
        (b"1 step 1 1", 13, 2),
        (b"1 begin", 12, 0),
        (b"1 begin boot", 12, 0),
        (b"1 begin tasks", 0, 0),
        (b"1 begin open $", 13, 2),
        (b"1 frobnicate", 12, 0),
        (b"1 BOOT", 12, 0),
        (b"1 copy", 12, 0),
        (b"1 make-pool $ $ 5 -", 0, 0),
        (b"1 make-pool ~ ~ 4 disk", 0, 0),
        (b"1 make-pool $ $ 6 -", 13, 3),
        (b"1 make-pool $ $ 5", 13, 4),
        (b"1 make-pool $ x 6 -", 13, 2),
        (b"1 spm-start $ 0 0", 0, 0),
        (b"1 spm-start $ 250 18446744073709551615", 0, 0),
        (b"1 spm-start $ 251 0", 13, 2),
        (b"1 spm-start $ 0 18446744073709551616", 13, 3),
        (b"1 spm-stop", 0, 0),
        (b"1 spm-stop $", 13, 1),
        (b"1 add-domain $ $ 5 -", 0, 0),
        (b"1 add-domain $ $ 3 -", 13, 3),
        (b"1 create $ $ @ @ RAW SPARSE 512 -", 0, 0),
        (b"1 create $ $ @ @ RAW PREALLOCATED 1099511627776 d", 0, 0),
        (b"1 create $ $ @ @ COW SPARSE 512 -", 0, 0),
        (b"1 create $ $ @ @ COW PREALLOCATED 512 -", 13, 5),
        (b"1 create $ $ @ @ RAW", 13, 5),
        (b"1 create $ $ @ @ raw SPARSE 512 -", 13, 5),
        (b"1 create $ $ @ @ RAW SPARSE 100 -", 0, 0),
        (b"1 create $ $ @ @ RAW SPARSE x -", 13, 6),
        (b"1 create $ $ @ @ RAW SPARSE 1099511628288 -", 0, 0),
        (b"1 create $ $ ~ @ RAW SPARSE 512 -", 13, 3),
        (b"1 create $ $ @ @ RAW SPARSE 512 - -", 13, 8),
        (b"1 snapshot $ $ @ @ @ 0 -", 0, 0),
        (b"1 snapshot $ $ @ @ ~ 0 -", 13, 5),
        (b"1 snapshot $ $ @ @ @ 100 -", 0, 0),
        (b"1 delete-volume $ $ @ @", 0, 0),
        (b"1 delete-volume $ $ @", 13, 4),
        (b"1 delete-image $ $ @", 0, 0),
        (b"1 delete-image $ $", 13, 3),
        (b"1 extend $ $ @ @ 1024", 0, 0),
        (b"1 extend $ $ @ @ 0", 0, 0),
        (b"1 describe $ $ @ @ text", 0, 0),
        (b"1 describe $ $ @ @", 13, 5),
        (b"1 open $ @", 0, 0),
        (b"1 open $", 13, 2),
        (b"1 open $ @ @", 13, 3),
        (b"1 open $ ~", 13, 2),
        (b"1 close $ @", 0, 0),
        (b"1 close @", 13, 2),
        (b"1 read $ @ 0 512", 0, 0),
        (b"1 read $ @ 0 0", 13, 4),
        (b"1 read $ @ 0 65537", 13, 4),
        (b"1 read $ @ - 512", 13, 3),
        (b"1 write $ @ 0 512*41", 0, 0),
        (b"1 write $ @ 0 65536*41+00", 13, 4),
        (b"1 write $ @ 0", 13, 4),
        (b"1 prepare-merge $ @ @ @", 0, 0),
        (b"1 prepare-merge $ @ @", 13, 4),
        (b"1 merge $ @ @ @ 999", 0, 0),
        (b"1 merge $ @ @ @ 1000", 13, 5),
        (b"1 finalize-merge $ @ @ @", 0, 0),
        (b"1 live-start $ @ @ @", 0, 0),
        (b"1 live-fill $ @ 4294967295", 0, 0),
        (b"1 live-fill $ @ 0", 13, 3),
        (b"1 live-sync $ @", 0, 0),
        (b"1 live-pivot $ @", 0, 0),
        (b"1 box-post $ @ @ 1376256 4294967295", 0, 0),
        (b"1 box-post $ @ @ 1376256 4294967296", 13, 5),
        (b"1 box-serve $ 250", 0, 0),
        (b"1 box-serve $ 0", 13, 2),
        (b"1 box-collect $", 0, 0),
        (b"1 tasks", 0, 0),
        (b"1 clear-task $", 0, 0),
        (b"1 recover", 0, 0),
        (b"1 recover 1", 13, 1),
    ];
    let mut room = [0; 65536];
    for (pattern, number, place) in cases {
        let line = spelled(rt.alloc(), pattern)?;
        assert_eq!(rt; refused(&line, &mut room), (number, place));
    }
    Ok(())
}
