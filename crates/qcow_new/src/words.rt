// What the program's words ask for.
ghost use Rattle.std.specs.Prelude.{IfSome};
ghost use Rattle.layer_creating.specs.New.{IsCapacity, IsLength};

use decimal_numbers::number;
use layer_creating::Backing;
use sd_names::{Format, Id};

/// A layer that is to be made.
#[derive(Clone, Copy, Debug)]
pub(crate) struct Order {
    /// The capacity and the file's length, in bytes.
    pub(crate) capacity: u64,
    pub(crate) length: u64,
    pub(crate) backing: Option<Backing>,
    pub(crate) ghost fits: { IsCapacity capacity },
    pub(crate) ghost whole: { IsLength length },
}

// The volume that a layer lies over, by its identifier and its format; `None` where a word is wrong.
fn backing_of(parent: &str, format: &str) -> Option<Backing> {
    let parent = Id::read(parent.as_bytes())?;
    match format {
        "RAW" => Some(Backing {
            parent,
            format: Format::Raw,
        }),
        "COW" => Some(Backing {
            parent,
            format: Format::Cow,
        }),
        _ => None,
    }
}

// The order of two numbers; `None` where one is out of range.
fn order_with(capacity: u64, length: u64, backing: Option<Backing>) -> Option<Order> {
    if capacity < 512 || capacity > 1 << 40 || length < 1_310_720 || length % 65_536 != 0 {
        return None;
    }
    Some(Order {
        capacity,
        length,
        backing,
    })
}

/// What words behind the program's name ask for; `None` where they are wrong.
pub(crate) fn order_of(words: &[String]) -> Option<Order> {
    let capacity = number(words.get(1)?.as_bytes())?;
    let length = number(words.get(2)?.as_bytes())?;
    match (words.get(3), words.get(4), words.get(5)) {
        (None, _, _) => order_with(capacity, length, None),
        (Some(parent), Some(format), None) => {
            let backing = backing_of(parent.as_str(), format.as_str())?;
            order_with(capacity, length, Some(backing))
        }
        _ => None,
    }
}
