// What a line asks for.
ghost use Rattle.shared_disk.specs.Calls.{IsAligned, IsPiece};
ghost use Rattle.volume_meta.specs.Valid.{IsCapacity};

use sd_names::Format;

/// Parts of one length, side by side, from the offset `at` on, in bytes.
#[derive(Clone, Copy, Debug)]
pub(crate) struct Parts {
    pub(crate) at: u64,
    pub(crate) length: usize,
    pub(crate) count: u64,
    pub(crate) ghost start: { IsAligned at },
    pub(crate) ghost piece: { IsPiece length },
}

/// An image that is to be made. Its capacity is in bytes, a multiple of 512 from 512 to 1 TiB.
#[derive(Clone, Copy, Debug)]
pub(crate) struct Image {
    pub(crate) format: Format,
    pub(crate) capacity: u64,
    pub(crate) ghost bounds: { IsCapacity capacity },
}

/// What is to be done.
#[derive(Clone, Copy, Debug)]
pub(crate) enum Order {
    /// The image is made.
    Make(Image),
    /// Parts are written that are filled with one byte.
    Write(Parts, u8),
    /// Parts are read.
    Read(Parts),
}

/// Reads a line: `make RAW|COW CAPACITY`, `write AT BYTE LENGTH [COUNT]` or `read AT LENGTH [COUNT]`. `None` where a word is
/// wrong.
pub(crate) fn order_of(line: &str) -> Option<Order> {
    let mut words = line.split_whitespace();
    match words.next()? {
        "make" => {
            let format = match words.next()? {
                "RAW" => Format::Raw,
                "COW" => Format::Cow,
                _ => return None,
            };
            image_of(format, words.next()?.parse().ok()?)
        }
        "write" => {
            let at = words.next()?.parse().ok()?;
            let byte = words.next()?.parse().ok()?;
            let length = words.next()?.parse().ok()?;
            let count = match words.next() {
                Some(word) => word.parse().ok()?,
                None => 1,
            };
            Some(Order::Write(parts_of(at, length, count)?, byte))
        }
        "read" => {
            let at = words.next()?.parse().ok()?;
            let length = words.next()?.parse().ok()?;
            let count = match words.next() {
                Some(word) => word.parse().ok()?,
                None => 1,
            };
            Some(Order::Read(parts_of(at, length, count)?))
        }
        _ => None,
    }
}

// The image that is to be made; `None` where its capacity is none.
fn image_of(format: Format, capacity: u64) -> Option<Order> {
    if capacity < 512 || capacity > 1 << 40 || capacity % 512 != 0 {
        return None;
    }
    Some(Order::Make(Image { format, capacity }))
}

// Parts; `None` where they aren't of whole sectors, or are too long.
fn parts_of(at: u64, length: usize, count: u64) -> Option<Parts> {
    if at % 512 != 0 || length % 512 != 0 || length < 512 || length > 65_536 {
        return None;
    }
    Some(Parts { at, length, count })
}
