// A message, and the bytes that spell it.
ghost use Rattle.std.specs.Prelude.{◌≡◌, ◌≤◌, ◌+◌, ◌++◌, ℕ, List, length, take, drop, replicate, IfSome, Some};
ghost use Rattle.mail_box.specs.Spelling.{message_bytes, IsMessage, fields_of, message_of};
ghost use Rattle.mail_box.specs.declared.message.Message.{Message as AnyMessage};

use byte_parts::put;
use byteorder::{BigEndian, ByteOrder};
use sd_names::Id;

/// A request to lengthen a volume, or the answer to one.
#[derive(Clone, Copy, Debug, PartialEq, Eq)]
pub struct Message {
    /// 0 for a request, 1 for done, 2 for fail.
    pub status: u8,
    pub image: Id,
    pub volume: Id,
    /// The wanted length of the volume's file, in bytes.
    pub length: u64,
    /// What the one who asked calls this request.
    pub mark: u32,
}

// The identifier that stands at this place of a slot.
fn id_at(slot: &[u8; 64], at: usize) -> Id
    requires { at + 16 ≤ 64 }
    ensures { result.0 ≡ take 16 (drop at slot.now) }
{
    let mut bytes = [0; 16];
    bytes.copy_from_slice(&slot[at..at + 16]);
    Id(bytes)
}

// What stands at the places of the fields.
fn fields(slot: &[u8; 64]) -> Message
    ensures { result ≡ fields_of slot.now }
{
    Message {
        status: slot[4],
        image: id_at(slot, 8),
        volume: id_at(slot, 24),
        length: BigEndian::read_u64(&slot[40..48]),
        mark: BigEndian::read_u32(&slot[48..52]),
    }
}

// The message whose bytes a slot has.
fn message_in(slot: &[u8; 64]) -> Option<Message>
    ensures { result ≡ message_of slot.now }
{
    let message = fields(slot);
    let mut written = [0; 64];
    message.write(&mut written);
    if message.status <= 2 && written == *slot {
        Some(message)
    } else {
        None
    }
}

impl Message {
    /// The message in a slot, if the slot has the bytes of a message and no others.
    pub fn read(slot: &[u8; 64]) -> Option<Message>
        // What is read is written so.
        ensures found { IfSome result (λ m. (m.status ≤ 2) × (slot.now ≡ message_bytes m)) }
        // What is written so is read.
        ensures exact { result ≡ message_of slot.now }
        ensures only { (m : AnyMessage) → IsMessage m → slot.now ≡ message_bytes m → result ≡ Some m }
    {
        message_in(slot)
    }

    /// Writes the message into a slot, over all of its bytes.
    pub fn write(&self, slot: &mut [u8; 64])
        ensures { slot.new ≡ message_bytes self.now }
    {
        *slot = [0; 64];
        put(slot, 0, b"xtnd");
        put(slot, 4, &[self.status, 0, 0, 0]);
        put(slot, 8, &self.image.0);
        put(slot, 24, &self.volume.0);
        put(slot, 40, &self.length.to_be_bytes());
        put(slot, 48, &self.mark.to_be_bytes());
    }
}
