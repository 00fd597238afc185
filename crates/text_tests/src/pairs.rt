// Pairs of keys and values, read, looked up and written.
use kv_text::{
    KvWriter, Lines, TextFault, description, first_bad_line, first_line, has_eof, needed,
    read_own_id, shape_fault, split_once, value_of,
};
use sd_names::{Id, Key};
use std::alloc::{AllocError, Global};

// What the lines of a text are, as text: a pair as `<key|value>`, a line without `=` as `!` and its number,
// and `.` where a line `EOF` was met.
fn shown(alloc: Global, text: &[u8]) -> Result<Vec<u8>, AllocError> {
    let mut out = Vec::new(alloc);
    let mut lines = Lines::new(text);
    for item in lines.by_ref() {
        match item {
            Ok(pair) => {
                out.extend_from_slice(b"<")?;
                out.extend_from_slice(pair.key)?;
                out.extend_from_slice(b"|")?;
                out.extend_from_slice(pair.value)?;
                out.extend_from_slice(b">")?;
            }
            Err(number) => out.extend_from_slice(format!(in alloc; "!{number}")?.as_bytes())?,
        }
    }
    if lines.ended() {
        out.extend_from_slice(b".")?;
    }
    Ok(out)
}

#[test]
fn reads(rt: HostRuntime) -> Result<(), AllocError> {
    let cases = [
        ("", ""),
        ("A=1\n\nB==2=\nEOF\nC=3\n", "<A|1><B|=2=>."),
        ("EOF", "."),
        ("A=1", "<A|1>"),
        ("x\n\nA = 1 \nEOFs\n=\n", "!1<A | 1 >!4<|>"),
        ("A=1\nA=2\nEOF=\r\nEOF\r\n", "<A|1><A|2><EOF|\r>!4"),
    ];
    for (text, want) in cases {
        let found = shown(rt.alloc(), text.as_bytes())?;
        assert_eq!(rt; found.as_slice(), want.as_bytes());
    }
    Ok(())
}

#[test]
fn writes(rt: HostRuntime) {
    let mut buffer = [b'.'; 12];
    let mut writer = KvWriter::new(&mut buffer);
    writer.push(b"AB", b"=c");
    writer.push(b"D", b"");
    assert_eq!(rt; writer.finish(), 9);
    assert_eq!(rt; buffer.as_slice(), b"AB==c\nD=\n...".as_slice());
}

#[test]
fn looks_up(rt: HostRuntime) {
    let text = b"A=1\nB=\n\nA=2\nEOF\nB=3";
    let cases = [
        ("A", Some("2")),
        ("B", Some("")),
        ("C", None),
        ("", None),
        ("EOF", None),
    ];
    for (key, want) in cases {
        let found = value_of(text, key.as_bytes());
        assert!(rt; found == want.map(|value| value.as_bytes()));
    }
    assert!(rt; has_eof(text));
    assert!(rt; !has_eof(b"A=1\n EOF\n"));
    assert!(rt; first_bad_line(text).is_none());
    assert!(rt; first_bad_line(b"\nA=1\nA\nB") == Some(3));
    assert!(rt; first_bad_line(b"EOF\nA").is_none());
}

// A text's first fault where SIZE and GEN have to be there, its SIZE, and its DESCRIPTION.
#[test]
fn keys(rt: HostRuntime) {
    let cases = [
        ("GEN=1\nSIZE=2\nSIZE=3\n", None, Some("3"), Some("")),
        (
            "GEN=1\nDESCRIPTION=a b\n",
            Some(TextFault::MissingKey(Key::Size)),
            None,
            Some("a b"),
        ),
        (
            "SIZE=\n\nGEN\n",
            Some(TextFault::BadLine(3)),
            Some(""),
            Some(""),
        ),
        (
            "EOF\nGEN=1\nSIZE=2\n",
            Some(TextFault::MissingKey(Key::Size)),
            None,
            Some(""),
        ),
    ];
    for (text, fault, size, description_text) in cases {
        let text = text.as_bytes();
        assert_eq!(rt; shape_fault(text, &[Key::Size, Key::Gen]), fault);
        assert!(rt; needed(text, Key::Size).ok() == size.map(|value| value.as_bytes()));
        assert!(rt; description(text).ok() == description_text.map(|value| value.as_bytes()));
    }
}

// The identifier of RFC 9562, section 4, in either case, and other texts.
#[test]
fn identifiers(rt: HostRuntime) {
    let id = Id([
        0xf8, 0x1d, 0x4f, 0xae, 0x7d, 0xec, 0x11, 0xd0, 0xa7, 0x65, 0, 0xa0, 0xc9, 0x1e, 0x6b, 0xf6,
    ]);
    let cases = [
        ("f81d4fae-7dec-11d0-a765-00a0c91e6bf6", true),
        ("F81D4FAE-7DEC-11D0-A765-00A0C91E6BF6", true),
        ("f81d4fae-7dec-11d0-a765-00a0c91e6bf7", false),
        ("f81d4fae7dec11d0a76500a0c91e6bf6", false),
        ("", false),
    ];
    for (value, own) in cases {
        assert_eq!(rt; read_own_id(id, value.as_bytes()).is_some(), own);
    }
}

#[test]
fn first_lines(rt: HostRuntime) {
    let cases = [
        ("A=1\nB=2\n", "A=1", "B=2\n"),
        ("A=1", "A=1", ""),
        ("\n\n", "", "\n"),
        ("", "", ""),
    ];
    for (text, line, behind) in cases {
        let found = first_line(text.as_bytes());
        assert!(rt; found.0 == line.as_bytes());
        assert!(rt; found.1 == behind.as_bytes());
    }
    assert!(rt; split_once(b"a,b,c", b',') == Some((b"a".as_slice(), b"b,c".as_slice())));
    assert!(rt; split_once(b"a,b,c", b';').is_none());
}
