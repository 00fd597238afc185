// The arguments of a verb, read one after the other.
ghost use Rattle.std.specs.Prelude.{◌+◌, ◌<◌, ◌^◌, length};

use crate::values::{read_description, read_id, read_layout, read_number, read_set_id};
use crate::{decode, take_word};
use sd_names::{AllocKind, Format, HostId, Id};

/// What is left of a line's arguments.
#[derive(Drop)]
pub struct Arguments<'a> {
    /// The bytes behind the last argument that was read.
    pub rest: &'a [u8],
    /// The place of the next argument, from 1.
    pub place: u64,
    ghost in_range: { place + length rest.now < 2 ^ 64 },
}

impl<'a> Arguments<'a> {
    ghost use Rattle.std.specs.Prelude.{◌≡◌, ◌≤◌, [], ◌∷◌, IfSome};
    ghost use Rattle.script_lines.specs.Argument.{identifier, set_identifier, number, description, data_text, layout, id_value, number_value, bytes_value, layout_value};
    ghost use Rattle.script_lines.specs.Reads.{Reads};

    /// The next argument, an identifier. Where it isn't one, the reader stays at its place, as after each `None`.
    pub fn id(&mut self) -> Option<Id>
        ensures reads { Reads (identifier ∷ []) (λ id. id_value id.0 ∷ []) self.old self.new result }
    {
        let (word, rest) = take_word(self.rest)?;
        let id = read_id(word)?;
        self.advance(rest);
        Some(id)
    }

    /// The next argument, an identifier that isn't all zeros.
    pub fn set_id(&mut self) -> Option<Id>
        ensures reads { Reads (set_identifier ∷ []) (λ id. id_value id.0 ∷ []) self.old self.new result }
    {
        let (word, rest) = take_word(self.rest)?;
        let id = read_set_id(word)?;
        self.advance(rest);
        Some(id)
    }

    /// The next argument, a number from `low` to `high`.
    pub fn number(&mut self, low: u64, high: u64) -> Option<u64>
        ensures reads { Reads (number low high ∷ []) (λ n. number_value n ∷ []) self.old self.new result }
        ensures within { IfSome result (λ n. (low ≤ n) × (n ≤ high)) }
    {
        let (word, rest) = take_word(self.rest)?;
        let value = read_number(word, low, high)?;
        self.advance(rest);
        Some(value)
    }

    /// The next argument, a description.
    pub fn description(&mut self) -> Option<&'a [u8]>
        ensures reads { Reads (description ∷ []) (λ text. bytes_value text.now ∷ []) self.old self.new result }
    {
        let (word, rest) = take_word(self.rest)?;
        let text = read_description(word)?;
        self.advance(rest);
        Some(text)
    }

    /// The next argument, format and allocation in two words.
    pub fn layout(&mut self) -> Option<(Format, AllocKind)>
        ensures reads { Reads (layout ∷ []) (λ of. layout_value of.0 of.1 ∷ []) self.old self.new result }
    {
        let (format, behind) = take_word(self.rest)?;
        let (kind, rest) = take_word(behind)?;
        let of = read_layout(format, kind)?;
        self.advance(rest);
        Some(of)
    }

    /// The next argument, data text, decoded into room for 65,536 bytes.
    pub fn data(&mut self, room: &'a mut [u8]) -> Option<&'a [u8]>
        requires { length room.old ≡ 65536 }
        ensures reads { Reads (data_text ∷ []) (λ bytes. bytes_value bytes.now ∷ []) self.old self.new result }
    {
        let (word, rest) = take_word(self.rest)?;
        let count = decode(word, room)?;
        self.advance(rest);
        Some(&room[..count])
    }

    /// The next argument, a host.
    pub fn host(&mut self) -> Option<HostId>
        ensures reads { Reads (number 1 250 ∷ []) (λ host. number_value host ∷ []) self.old self.new result }
    {
        let number = self.number(1, 250)?;
        match HostId::new(number) {
            Some(host) => Some(host),
            None => None,
        }
    }

    /// A domain and an image of it.
    pub fn image(&mut self) -> Option<(Id, Id)>
        ensures reads { Reads
            (identifier ∷ set_identifier ∷ [])
            (λ ids. id_value ids.0.0 ∷ id_value ids.1.0 ∷ [])
            self.old self.new result }
    {
        let sd = self.id()?;
        let image = self.set_id()?;
        Some((sd, image))
    }

    /// A domain, an image of it and a volume of that.
    pub fn volume(&mut self) -> Option<(Id, Id, Id)>
        ensures reads { Reads
            (identifier ∷ set_identifier ∷ set_identifier ∷ [])
            (λ ids. id_value ids.0.0 ∷ id_value ids.1.0 ∷ id_value ids.2.0 ∷ [])
            self.old self.new result }
    {
        let sd = self.id()?;
        let image = self.set_id()?;
        let v = self.set_id()?;
        Some((sd, image, v))
    }

    /// Goes on behind an argument.
    fn advance(&mut self, rest: &'a [u8])
        requires { length rest.now < length self.old.rest.now }
        ensures rest { self.new.rest.now ≡ rest.now }
        ensures place { self.new.place ≡ self.old.place + 1 }
    {
        self.rest = rest;
        self.place += 1;
    }
}
