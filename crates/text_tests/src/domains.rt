// The texts of a domain.
use domain_meta::{read, write_into};
use hex::decode_to_slice;
use sd_names::{DomainFault, Id, Role};
use sha1::Sha1;
use std::alloc::{AllocError, Global};

const POOL: Id = Id([0, 0, 0, 0, 0, 0, 0x40, 0, 0x80, 0, 0, 0, 0, 0, 0, 1]);

const SD: Id = Id([0, 0, 0, 0, 0, 0, 0x40, 0, 0x80, 0, 0, 0, 0, 0, 0, 2]);

const OTHER: Id = Id([0, 0, 0, 0, 0, 0, 0x40, 0, 0x80, 0, 0, 0, 0, 0, 0, 10]);

// The text of a master. All digests of this file are those of python3's hashlib over sorted lines.
const MASTER: &str =
    "CLASS=Data\nDESCRIPTION=store one\nMASTER_VERSION=1\nPOOL_DOMAINS=00000000-0000-4000-8000-000000000002:Active,00000000-0000-4000-8000-00000000000a:Active\nPOOL_UUID=00000000-0000-4000-8000-000000000001\nROLE=Master\nSDUUID=00000000-0000-4000-8000-000000000002\nVERSION=5\n_SHA_CKSUM=3beb5075eb9a79b51ed84af47b278cf9162b27e5\n";

// The text of another domain.
const REGULAR: &str =
    "CLASS=Data\nDESCRIPTION=\nMASTER_VERSION=0\nPOOL_DOMAINS=\nPOOL_UUID=00000000-0000-4000-8000-000000000001\nROLE=Regular\nSDUUID=00000000-0000-4000-8000-000000000002\nVERSION=4\n_SHA_CKSUM=891ce011cc7827fb29e9246eaf9d1c54c0b8d74f\n";

// What reading a text answers: nothing where it gives a record, and else the fault and its key.
fn fault_of(alloc: Global, text: &[u8]) -> (&'static str, &'static str) {
    match read(alloc, SD, text) {
        Ok(_) => ("", ""),
        Err(DomainFault::TooLong) => ("TooLong", ""),
        Err(DomainFault::BadLine(_)) => ("BadLine", ""),
        Err(DomainFault::MissingKey(key)) => ("MissingKey", key.name()),
        Err(DomainFault::BadValue(key)) => ("BadValue", key.name()),
        Err(DomainFault::Checksum(_, _)) => ("Checksum", ""),
        Err(DomainFault::Memory) => ("Memory", ""),
    }
}

// A text's lines, without those of a key, with other lines before them, and with this digest.
fn changed(
    alloc: Global,
    text: &str,
    key: &str,
    lines: &str,
    digest: &str,
) -> Result<Vec<u8>, AllocError> {
    let mut out = Vec::new(alloc);
    out.extend_from_slice(lines.as_bytes())?;
    out.extend_from_slice(b"\n")?;
    for line in text.lines() {
        let name = line.split_once('=').map_or("", |parts| parts.0);
        if name != key && name != "_SHA_CKSUM" {
            out.extend_from_slice(line.as_bytes())?;
            out.extend_from_slice(b"\n")?;
        }
    }
    out.extend_from_slice(b"_SHA_CKSUM=")?;
    out.extend_from_slice(digest.as_bytes())?;
    Ok(out)
}

// The digest that hexadecimal digits spell.
fn digest(text: &str) -> Option<[u8; 20]> {
    let mut bytes = [0; 20];
    match decode_to_slice(text.as_bytes(), &mut bytes) {
        Ok(()) => Some(bytes),
        Err(_) => None,
    }
}

// The example of FIPS 180-4.
#[test]
fn digest_of_the_standard(rt: HostRuntime) {
    assert!(rt; digest("a9993e364706816aba3e25717850c26c9cd0d89d") == Some(Sha1::digest(b"abc")));
}

// Each text with its version, its domains, the version of its master, and its description.
#[test]
fn texts_are_written_as_they_were_read(rt: HostRuntime) {
    let cases: [(&str, u64, bool, &[Id], u64, &str); 2] = [
        (MASTER, 5, true, &[SD, OTHER], 1, "store one"),
        (REGULAR, 4, false, &[], 0, ""),
    ];
    for (text, version, is_master, domains, master_version, description) in cases {
        match read(rt.alloc(), SD, text.as_bytes()) {
            Ok(domain) => {
                assert!(rt; domain.sduuid == SD);
                assert!(rt; domain.pool == POOL);
                assert_eq!(rt; domain.version, version);
                assert_eq!(rt; domain.role == Role::Master, is_master);
                assert!(rt; domain.domains.as_slice() == domains);
                assert_eq!(rt; domain.master_version, master_version);
                assert!(rt; domain.description.as_slice() == description.as_bytes());
                let mut into = [0; 8192];
                let len = write_into(&domain, &mut into);
                assert_eq!(rt; len, text.len());
                assert!(rt; &into[..len.min(8192)] == text.as_bytes());
            }
            Err(_) => assert!(rt; false),
        }
    }
}

// Each line taken away, and what is then missing: the checksum alone is wrong where DESCRIPTION is gone.
#[test]
fn missing_keys(rt: HostRuntime) -> Result<(), AllocError> {
    for text in [MASTER, REGULAR] {
        for gone in text.lines() {
            let mut left = Vec::new(rt.alloc());
            for line in text.lines() {
                if line != gone {
                    left.extend_from_slice(line.as_bytes())?;
                    left.extend_from_slice(b"\n")?;
                }
            }
            let key = gone.split_once('=').map_or("", |parts| parts.0);
            let found = fault_of(rt.alloc(), &left);
            if key == "DESCRIPTION" {
                assert_eq!(rt; found.0, "Checksum");
            } else {
                assert_eq!(rt; found.0, "MissingKey", "{key}");
                assert_eq!(rt; found.1, key);
            }
        }
    }
    Ok(())
}

// A key whose line is taken away, the lines that stand in its place, the digest, and the key at fault.
const VALUES: [(&str, &str, &str, &str); 22] = [
    (
        "CLASS",
        "CLASS=data",
        "7b151441a5a0d5b833e810330582750ea970a2ac",
        "CLASS",
    ),
    (
        "DESCRIPTION",
        "",
        "d7454f08c7f6763702a3b54da9e1e92a01adb19e",
        "",
    ),
    (
        "MASTER_VERSION",
        "MASTER_VERSION=0",
        "e2c1e1f343a7946c3e6747ea9c6139495dee593d",
        "MASTER_VERSION",
    ),
    (
        "MASTER_VERSION",
        "MASTER_VERSION=01",
        "9054510ab150945392649fd8af30479162713549",
        "",
    ),
    (
        "POOL_DOMAINS",
        "POOL_DOMAINS=",
        "eb8f8c352e065fae0d15cc2fe14623e06e865ceb",
        "POOL_DOMAINS",
    ),
    (
        "POOL_DOMAINS",
        "POOL_DOMAINS=00000000-0000-4000-8000-00000000000a:Active,00000000-0000-4000-8000-000000000002:Active",
        "c3708cd765dcce2abd1e90e886c74b1b43fa2ba8",
        "POOL_DOMAINS",
    ),
    (
        "POOL_DOMAINS",
        "POOL_DOMAINS=00000000-0000-4000-8000-000000000002:Active,00000000-0000-4000-8000-000000000002:Active",
        "ba3cc12c141d66227962ef11246c7dc5387d83a9",
        "POOL_DOMAINS",
    ),
    (
        "POOL_DOMAINS",
        "POOL_DOMAINS=00000000-0000-4000-8000-000000000002:Attached",
        "4665dfa0c21e7009a37a8d855f3ef13bf24209ec",
        "POOL_DOMAINS",
    ),
    (
        "POOL_DOMAINS",
        "POOL_DOMAINS=00000000-0000-4000-8000-000000000002:Active,",
        "597c2b4565344cbbeb359d75ce27aa682dd13d37",
        "POOL_DOMAINS",
    ),
    (
        "POOL_DOMAINS",
        "POOL_DOMAINS=00000000-0000-4000-8000-000000000002:Active,00000000-0000-4000-8000-000000000003:Active,00000000-0000-4000-8000-000000000004:Active,00000000-0000-4000-8000-000000000005:Active",
        "6ac38933979a20b7ecbebfe259302fef33310982",
        "",
    ),
    (
        "POOL_DOMAINS",
        "POOL_DOMAINS=00000000-0000-4000-8000-000000000002:Active,00000000-0000-4000-8000-000000000003:Active,00000000-0000-4000-8000-000000000004:Active,00000000-0000-4000-8000-000000000005:Active,00000000-0000-4000-8000-000000000006:Active",
        "8b0b61f6eeb217ce2a5fb91ca11b241051dc6f9a",
        "POOL_DOMAINS",
    ),
    (
        "POOL_UUID",
        "POOL_UUID=1",
        "f065611581ff62592a87bb058d036f4651c47ed4",
        "POOL_UUID",
    ),
    (
        "ROLE",
        "ROLE=master",
        "809bf721f34516e8fcc94ce6b00a84178e6d6f82",
        "ROLE",
    ),
    (
        "ROLE",
        "ROLE=Regular",
        "ce2aa3c792170aa6f92ddf149e45008ffcc9d515",
        "MASTER_VERSION",
    ),
    (
        "SDUUID",
        "SDUUID=00000000-0000-4000-8000-00000000000a",
        "526eb4f92af6d7d903ba8508353cf48e619c8f66",
        "SDUUID",
    ),
    (
        "POOL_DOMAINS",
        "POOL_DOMAINS=00000000-0000-4000-8000-000000000002:Active,00000000-0000-4000-8000-00000000000A:Active",
        "cab0f41064e636ae6f3fb973acbd947c5348212e",
        "",
    ),
    (
        "VERSION",
        "VERSION=-1",
        "01f819356da2fd98309838304353ce447233f248",
        "VERSION",
    ),
    (
        "VERSION",
        "VERSION=18446744073709551615",
        "9def00b706caad12b3fc3f32cd66514c4735c32e",
        "",
    ),
    (
        "VERSION",
        "VERSION=18446744073709551616",
        "914cdc366a1ee8c69a54b0940425a67a8cb659ec",
        "VERSION",
    ),
    (
        "VERSION",
        "VERSION=9\nSEQ=3\nVERSION=5\nVERSION=5",
        "4b996950bfacff94d0703cd6a13f98a604350de4",
        "",
    ),
    (
        "VERSION",
        "VERSION=5\nVERSION=x",
        "acd4554289e514817da1320adc81865fc510796a",
        "VERSION",
    ),
    (
        "CLASS",
        "VERSION=x\nCLASS=Date",
        "e9a80197735853f928cf446c677ba7b85bdaf80c",
        "CLASS",
    ),
];

// Likewise with the fault, of which the first is given: a line, then a key, then the checksum, then a value.
const ORDER: [(&str, &str, &str, &str, &str); 7] = [
    (
        "CLASS",
        "middle\nCLASS=x",
        "0000000000000000000000000000000000000000",
        "BadLine",
        "",
    ),
    (
        "CLASS",
        "EOF\nmiddle",
        "0000000000000000000000000000000000000000",
        "MissingKey",
        "CLASS",
    ),
    (
        "CLASS",
        "CLASS=x",
        "0000000000000000000000000000000000000000",
        "Checksum",
        "",
    ),
    (
        "VERSION",
        "CLASS=x",
        "3BEB5075EB9A79B51ED84AF47B278CF9162B27E5",
        "MissingKey",
        "VERSION",
    ),
    (
        "SEQ",
        "CLASS=x",
        "3BEB5075EB9A79B51ED84AF47B278CF9162B27E5",
        "BadValue",
        "_SHA_CKSUM",
    ),
    ("SEQ", "", "3beb5075", "BadValue", "_SHA_CKSUM"),
    (
        "SEQ",
        "_SHA_CKSUM=x",
        "3beb5075eb9a79b51ed84af47b278cf9162b27e5",
        "",
        "",
    ),
];

// Whether a changed text of a master has this fault and key.
fn gives(
    alloc: Global,
    key: &str,
    lines: &str,
    digest: &str,
    fault: &str,
    want: &str,
) -> Result<bool, AllocError> {
    let text = changed(alloc, MASTER, key, lines, digest)?;
    let found = fault_of(alloc, &text);
    Ok(found.0 == fault && found.1 == want)
}

#[test]
fn faults_of_changed_texts(rt: HostRuntime) -> Result<(), AllocError> {
    for (key, lines, digest, want) in VALUES {
        let fault = if want.is_empty() { "" } else { "BadValue" };
        assert!(rt;
            gives(rt.alloc(), key, lines, digest, fault, want)?,
            "{lines}"
        );
    }
    for (key, lines, digest, fault, want) in ORDER {
        assert!(rt;
            gives(rt.alloc(), key, lines, digest, fault, want)?,
            "{lines}"
        );
    }
    Ok(())
}

// A changed byte of the description: both digests are told.
#[test]
fn digests_of_a_changed_text(rt: HostRuntime) -> Result<(), AllocError> {
    let found = "3beb5075eb9a79b51ed84af47b278cf9162b27e5";
    let text = changed(
        rt.alloc(),
        MASTER,
        "DESCRIPTION",
        "DESCRIPTION=Store one",
        found,
    )?;
    match read(rt.alloc(), SD, &text) {
        Err(DomainFault::Checksum(stored, computed)) => {
            assert!(rt; Some(stored) == digest(found));
            assert!(rt; Some(computed) == digest("85e67771f5a4db5134bc03573190971d2075ebfe"));
        }
        _ => assert!(rt; false),
    }
    Ok(())
}

// Lines behind `EOF` aren't read. A text of 8,192 bytes is read, and one of a byte more isn't.
#[test]
fn ends_of_texts(rt: HostRuntime) -> Result<(), AllocError> {
    let mut text = Vec::new(rt.alloc());
    text.extend_from_slice(MASTER.as_bytes())?;
    text.extend_from_slice(b"EOF\nCLASS=x\nmiddle\n")?;
    assert_eq!(rt; fault_of(rt.alloc(), &text).0, "");
    let cases = [
        (7871, "67c24cb5225c45781acdd8b8b27141398a3f3c1d", 8192, ""),
        (
            7872,
            "695faee93ab35b2e6a50fd3598f4f9817119294e",
            8193,
            "TooLong",
        ),
    ];
    for (count, digest, len, want) in cases {
        let mut pad = String::new(rt.alloc());
        pad.push_str("PAD=")?;
        for _ in 0..count {
            pad.push_str("x")?;
        }
        let mut text = changed(rt.alloc(), MASTER, "PAD", &pad, digest)?;
        text.extend_from_slice(b"\n")?;
        assert_eq!(rt; text.len(), len);
        assert_eq!(rt; fault_of(rt.alloc(), &text).0, want);
    }
    Ok(())
}
