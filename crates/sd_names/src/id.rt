// Identifiers: the sixteen bytes of RFC 9562, and their hyphenated text.
ghost use Rattle.std.specs.Prelude.{◌≡◌, ◌≢◌, ◌↔◌, ℕ, List, length, IfSome, IfNone, IsTrue, Some};
ghost use Rattle.std.specs.Str.{IsAscii};
ghost use Rattle.sd_names.specs.Id.{IsIdBytes, ReadsAs, id_text, id_of, zero_id};

use std::fmt;
use uuid::Uuid;

/// An identifier of a pool, a domain, an image, a volume or a task: the sixteen bytes of RFC 9562, section 4.
#[derive(Clone, Copy, Debug, Default, PartialEq, Eq, PartialOrd, Ord)]
pub struct Id(pub [u8; 16]);

impl Id {
    /// Sixteen bytes of zero: no parent, or no image.
    pub const ZERO: Id = Id([0; 16]);

    /// Whether the two are one identifier.
    pub fn is(&self, other: &Id) -> bool
        ensures { IsTrue result ↔ (self.now ≡ other.now) }
    {
        self == other
    }

    /// Whether this is the identifier of zeros (RFC 9562, section 5.9), which stands for no parent or no image.
    pub fn is_zero(&self) -> bool
        ensures { IsTrue result ↔ (self.now ≡ zero_id) }
    {
        self.is(&Id::ZERO)
    }

    /// The identifier of a hyphenated text of 36 bytes (RFC 9562, section 4), in either case.
    #[tactic(auto, unfolding(crate::specs::Id::id_of))]
    pub fn read(text: &[u8]) -> Option<Id>
        ensures value { result ≡ id_of text.now }
        ensures read { IfSome result (λ id. ReadsAs text.now id.0) }
        ensures found { (bytes : List ℕ) → IsIdBytes bytes → ReadsAs text.now bytes → result ≡ Some (record { 0 = bytes }) }
        ensures refused { IfNone result ((bytes : List ℕ) → IsIdBytes bytes → ¬ ReadsAs text.now bytes) }
    {
        if text.len() != 36 {
            return None;
        }
        match Uuid::try_parse_ascii(text) {
            Ok(uuid) => Some(Id(uuid.into_bytes())),
            Err(_) => None,
        }
    }

    /// An identifier has sixteen bytes, each below 256. It does nothing: a proof that needs the fact calls it.
    #[inline]
    pub fn has_sixteen_bytes(&self)
        ensures { IsIdBytes self.now.0 }
    {
        let bytes = &self.0;
        'bytes: for i in 0..16 {
            let _ = bytes[i];
        }
    }

    /// The identifier's text in lower case (RFC 9562, section 4).
    pub fn text(&self) -> [u8; 36]
        ensures text { result ≡ id_text self.now.0 }
        ensures length { length result ≡ 36 }
        ensures ascii { IsAscii result }
    {
        let mut buffer = [0; 36];
        let encoded = Uuid::from_bytes(self.0)
            .hyphenated()
            .encode_lower(&mut buffer);
        let mut text = [0; 36];
        text.copy_from_slice(encoded.as_bytes());
        text
    }
}

impl fmt::Display for Id {
    ghost output = { λ id. Some (id_text id.0) };

    fn fmt<W: fmt::Write>(&self, f: &mut fmt::Formatter<W>) -> fmt::Result {
        let mut buffer = [0; 36];
        f.write_str(
            Uuid::from_bytes(self.0)
                .hyphenated()
                .encode_lower(&mut buffer),
        )
    }
}

/// The text of an identifier reads as that identifier.
pub fn id_text_reads_as_itself()
    ensures { (bytes : List ℕ) → ReadsAs (id_text bytes) bytes }
{}

/// Two identifiers that have one text are one.
pub fn id_text_is_injective()
    ensures { (a b : List ℕ) → IsIdBytes a → IsIdBytes b → id_text a ≡ id_text b → a ≡ b }
{}

#[cfg(test)]
mod tests {
    use super::*;
    use std::test::Fail;

    const TEXT: &[u8; 36] = b"f81d4fae-7dec-11d0-a765-00a0c91e6bf6";

    const BYTES: [u8; 16] = [
        0xf8, 0x1d, 0x4f, 0xae, 0x7d, 0xec, 0x11, 0xd0, 0xa7, 0x65, 0x00, 0xa0, 0xc9, 0x1e, 0x6b,
        0xf6,
    ];

    // The text and the bytes of RFC 9562, section 4.
    #[test]
    fn example_of_the_standard(rt: HostRuntime) -> Result<(), Fail> {
        let id = Id::read(TEXT).ok_or("not read")?;
        assert!(rt; id == Id(BYTES));
        assert!(rt; Id::read(b"F81D4FAE-7DEC-11D0-A765-00A0C91E6BF6") == Some(id));
        assert!(rt; id.text() == *TEXT);
        let shown = id.to_string(rt.alloc())?;
        assert!(rt; shown.as_bytes() == TEXT.as_slice());
        Ok(())
    }

    #[test]
    fn other_forms_are_refused(rt: HostRuntime) {
        let texts: [&[u8]; 6] = [
            b"",
            b"f81d4fae7dec11d0a76500a0c91e6bf6",
            b"{f81d4fae-7dec-11d0-a765-00a0c91e6bf6}",
            b"urn:uuid:f81d4fae-7dec-11d0-a765-00a0c91e6bf6",
            b"f81d4fae7-dec-11d0-a765-00a0c91e6bf6",
            b"g81d4fae-7dec-11d0-a765-00a0c91e6bf6",
        ];
        for text in texts {
            assert!(rt; Id::read(text).is_none());
        }
    }
}
