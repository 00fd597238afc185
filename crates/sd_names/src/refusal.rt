// The refusals of the store, each with its number.
ghost use Rattle.std.specs.Prelude.{◌≡◌, ◌+◌, ◌≤◌, ◌∷◌, ◌++◌, [], Some, decimal, length, vec_capacity};
ghost use Rattle.sd_names.specs.Fault.{layer_fault_words};
ghost use Rattle.sd_names.specs.Id.{id_text};
ghost use Rattle.sd_names.specs.Refusal.{refusal_number, refusal_name, refusal_values, refusal_text};
ghost use Rattle.sd_names.specs.Value.{value_texts, AreShort};

use crate::value::{Value, Values, push_digits, push_value, push_word};
use crate::{Absence, DomainFault, Id, LayerFault, VolumeFault, push_all};
use arrayvec::ArrayString;
use std::fmt;

/// Room in which every refusal's text fits, in bytes.
pub const REFUSAL_ROOM: usize = 160;

/// The text of a refusal.
pub type RefusalText = ArrayString<160>;

/// Why a line, a verb or a call was refused. A count, a capacity or a length is in bytes where the variant
/// says nothing else; hosts are numbers.
#[derive(Clone, Copy, Debug)]
pub enum Refusal {
    BadLine,
    LineTooLong,
    UnknownVerb,
    BadArgument(u64),
    NotBuilt,
    HostDown,
    HostBusy,
    HostIdle,
    HostUp,
    TooManyHosts,
    OthersUp(u8),
    NoPool,
    PoolExists(Id),
    NoDomain,
    DomainExists,
    DomainCorrupt(DomainFault),
    WrongVersion(u64),
    TooManyDomains,
    NotSpm,
    SpmHeld(u8, u64),
    LverMismatch(u64, u64),
    PrevMismatch(u8, u8),
    NoImage,
    ImageExists,
    ImageHeld(u8),
    ImageNotOpen,
    LeaseAreaFull,
    ImageOpen,
    TooManyOpen,
    NoReadingVolume,
    LeaseCorrupt(u64),
    NoVolume(Id),
    VolumeExists(Id),
    HasChildren(Id),
    LastVolume,
    VolumeIllegal(Id),
    MetaCorrupt(Id, VolumeFault),
    GenerationMismatch(u64, u64),
    WrongParent(Id, Id),
    ChainTooLong(u64),
    BadCapacity(u64, u64),
    OutOfRange(u64, u64),
    NoRoom(Id, u64, u64),
    Unaligned(u64, u64),
    LayerRefused(Id, LayerFault),
    NotPrepared,
    MergeRunning(Id),
    MergeNotReady(u64, u64),
    NotMerging,
    NoTask,
    TaskOpen(Id),
    TaskExists(Id),
    TasksFull,
    TaskCorrupt(Id),
    BoxFull,
    DiskFault(u64),
    ImageBroken(u64),
    Vanished(Absence),
    OutOfMemory,
}

impl Refusal {
    /// The refusal's number.
    pub fn number(&self) -> u16
        ensures number { result ≡ refusal_number self.now }
        ensures small { result ≤ 130 }
    {
        match self {
            Refusal::BadLine => 10,
            Refusal::LineTooLong => 11,
            Refusal::UnknownVerb => 12,
            Refusal::BadArgument(_) => 13,
            Refusal::NotBuilt => 14,
            Refusal::HostDown => 20,
            Refusal::HostBusy => 21,
            Refusal::HostIdle => 22,
            Refusal::HostUp => 23,
            Refusal::TooManyHosts => 24,
            Refusal::OthersUp(_) => 25,
            Refusal::NoPool => 30,
            Refusal::PoolExists(_) => 31,
            Refusal::NoDomain => 32,
            Refusal::DomainExists => 33,
            Refusal::DomainCorrupt(_) => 34,
            Refusal::WrongVersion(_) => 35,
            Refusal::TooManyDomains => 36,
            Refusal::NotSpm => 40,
            Refusal::SpmHeld(..) => 41,
            Refusal::LverMismatch(..) => 42,
            Refusal::PrevMismatch(..) => 43,
            Refusal::NoImage => 50,
            Refusal::ImageExists => 51,
            Refusal::ImageHeld(_) => 52,
            Refusal::ImageNotOpen => 53,
            Refusal::LeaseAreaFull => 54,
            Refusal::ImageOpen => 55,
            Refusal::TooManyOpen => 56,
            Refusal::NoReadingVolume => 57,
            Refusal::LeaseCorrupt(_) => 58,
            Refusal::NoVolume(_) => 60,
            Refusal::VolumeExists(_) => 61,
            Refusal::HasChildren(_) => 62,
            Refusal::LastVolume => 63,
            Refusal::VolumeIllegal(_) => 64,
            Refusal::MetaCorrupt(..) => 65,
            Refusal::GenerationMismatch(..) => 66,
            Refusal::WrongParent(..) => 67,
            Refusal::ChainTooLong(_) => 68,
            Refusal::BadCapacity(..) => 69,
            Refusal::OutOfRange(..) => 70,
            Refusal::NoRoom(..) => 71,
            Refusal::Unaligned(..) => 72,
            Refusal::LayerRefused(..) => 80,
            Refusal::NotPrepared => 90,
            Refusal::MergeRunning(_) => 91,
            Refusal::MergeNotReady(..) => 92,
            Refusal::NotMerging => 93,
            Refusal::NoTask => 100,
            Refusal::TaskOpen(_) => 101,
            Refusal::TaskExists(_) => 102,
            Refusal::TasksFull => 103,
            Refusal::TaskCorrupt(_) => 104,
            Refusal::BoxFull => 110,
            Refusal::DiskFault(_) => 120,
            Refusal::ImageBroken(_) => 121,
            Refusal::Vanished(_) => 122,
            Refusal::OutOfMemory => 130,
        }
    }

    /// The refusal's name.
    pub fn name(&self) -> &'static str
        ensures name { result.now ≡ refusal_name self.now }
        ensures short { length result.now ≤ 18 }
    {
        match self {
            Refusal::BadLine => "BadLine",
            Refusal::LineTooLong => "LineTooLong",
            Refusal::UnknownVerb => "UnknownVerb",
            Refusal::BadArgument(_) => "BadArgument",
            Refusal::NotBuilt => "NotBuilt",
            Refusal::HostDown => "HostDown",
            Refusal::HostBusy => "HostBusy",
            Refusal::HostIdle => "HostIdle",
            Refusal::HostUp => "HostUp",
            Refusal::TooManyHosts => "TooManyHosts",
            Refusal::OthersUp(_) => "OthersUp",
            Refusal::NoPool => "NoPool",
            Refusal::PoolExists(_) => "PoolExists",
            Refusal::NoDomain => "NoDomain",
            Refusal::DomainExists => "DomainExists",
            Refusal::DomainCorrupt(_) => "DomainCorrupt",
            Refusal::WrongVersion(_) => "WrongVersion",
            Refusal::TooManyDomains => "TooManyDomains",
            Refusal::NotSpm => "NotSpm",
            Refusal::SpmHeld(..) => "SpmHeld",
            Refusal::LverMismatch(..) => "LverMismatch",
            Refusal::PrevMismatch(..) => "PrevMismatch",
            Refusal::NoImage => "NoImage",
            Refusal::ImageExists => "ImageExists",
            Refusal::ImageHeld(_) => "ImageHeld",
            Refusal::ImageNotOpen => "ImageNotOpen",
            Refusal::LeaseAreaFull => "LeaseAreaFull",
            Refusal::ImageOpen => "ImageOpen",
            Refusal::TooManyOpen => "TooManyOpen",
            Refusal::NoReadingVolume => "NoReadingVolume",
            Refusal::LeaseCorrupt(_) => "LeaseCorrupt",
            Refusal::NoVolume(_) => "NoVolume",
            Refusal::VolumeExists(_) => "VolumeExists",
            Refusal::HasChildren(_) => "HasChildren",
            Refusal::LastVolume => "LastVolume",
            Refusal::VolumeIllegal(_) => "VolumeIllegal",
            Refusal::MetaCorrupt(..) => "MetaCorrupt",
            Refusal::GenerationMismatch(..) => "GenerationMismatch",
            Refusal::WrongParent(..) => "WrongParent",
            Refusal::ChainTooLong(_) => "ChainTooLong",
            Refusal::BadCapacity(..) => "BadCapacity",
            Refusal::OutOfRange(..) => "OutOfRange",
            Refusal::NoRoom(..) => "NoRoom",
            Refusal::Unaligned(..) => "Unaligned",
            Refusal::LayerRefused(..) => "LayerRefused",
            Refusal::NotPrepared => "NotPrepared",
            Refusal::MergeRunning(_) => "MergeRunning",
            Refusal::MergeNotReady(..) => "MergeNotReady",
            Refusal::NotMerging => "NotMerging",
            Refusal::NoTask => "NoTask",
            Refusal::TaskOpen(_) => "TaskOpen",
            Refusal::TaskExists(_) => "TaskExists",
            Refusal::TasksFull => "TasksFull",
            Refusal::TaskCorrupt(_) => "TaskCorrupt",
            Refusal::BoxFull => "BoxFull",
            Refusal::DiskFault(_) => "DiskFault",
            Refusal::ImageBroken(_) => "ImageBroken",
            Refusal::Vanished(_) => "Vanished",
            Refusal::OutOfMemory => "OutOfMemory",
        }
    }

    // The refusal's values, in order.
    fn values(&self) -> Values
        ensures texts { value_texts result ≡ refusal_values self.now }
        ensures short { AreShort result }
    {
        match *self {
            Refusal::DomainCorrupt(fault) => fault.values(),
            Refusal::LayerRefused(v, fault) => layer_values(v, fault),
            Refusal::Vanished(answer) => Values::One(Value::Word(answer.name())),
            Refusal::MetaCorrupt(v, fault) => Values::Two(
                Value::Identifier(v),
                Value::Word(fault.word()),
            ),
            Refusal::WrongParent(v, found) => Values::Two(
                Value::Identifier(v),
                Value::Identifier(found),
            ),
            Refusal::NoRoom(v, room, wanted) => Values::Three(
                Value::Identifier(v),
                Value::Number(room),
                Value::Number(wanted),
            ),
            Refusal::SpmHeld(host, lver) => two_numbers(u64::from(host), lver),
            Refusal::PrevMismatch(asked, found) => two_numbers(u64::from(asked), u64::from(found)),
            Refusal::OthersUp(host) | Refusal::ImageHeld(host) => one_number(u64::from(host)),
            Refusal::BadArgument(number)
            | Refusal::WrongVersion(number)
            | Refusal::LeaseCorrupt(number)
            | Refusal::ChainTooLong(number)
            | Refusal::DiskFault(number)
            | Refusal::ImageBroken(number) => one_number(number),
            Refusal::LverMismatch(first, second)
            | Refusal::GenerationMismatch(first, second)
            | Refusal::BadCapacity(first, second)
            | Refusal::OutOfRange(first, second)
            | Refusal::Unaligned(first, second)
            | Refusal::MergeNotReady(first, second) => two_numbers(first, second),
            Refusal::PoolExists(id)
            | Refusal::NoVolume(id)
            | Refusal::VolumeExists(id)
            | Refusal::HasChildren(id)
            | Refusal::VolumeIllegal(id)
            | Refusal::MergeRunning(id)
            | Refusal::TaskOpen(id)
            | Refusal::TaskExists(id)
            | Refusal::TaskCorrupt(id) => Values::One(Value::Identifier(id)),
            Refusal::BadLine
            | Refusal::LineTooLong
            | Refusal::UnknownVerb
            | Refusal::NotBuilt
            | Refusal::HostDown
            | Refusal::HostBusy
            | Refusal::HostIdle
            | Refusal::HostUp
            | Refusal::TooManyHosts => Values::Zero,
            Refusal::NoPool
            | Refusal::NoDomain
            | Refusal::DomainExists
            | Refusal::TooManyDomains
            | Refusal::NotSpm
            | Refusal::NoImage
            | Refusal::ImageExists => Values::Zero,
            Refusal::ImageNotOpen
            | Refusal::LeaseAreaFull
            | Refusal::ImageOpen
            | Refusal::TooManyOpen
            | Refusal::NoReadingVolume
            | Refusal::LastVolume
            | Refusal::NotPrepared
            | Refusal::NotMerging
            | Refusal::NoTask
            | Refusal::TasksFull
            | Refusal::BoxFull
            | Refusal::OutOfMemory => Values::Zero,
        }
    }

    /// The refusal's text: number, name and values, with one space between.
    pub fn text(&self) -> RefusalText
        ensures bytes { result.bytes ≡ refusal_text self.now }
        ensures len { length result.bytes ≤ REFUSAL_ROOM }
    {
        let mut text = RefusalText::new();
        push_digits(&mut text, u64::from(self.number()));
        push_word(&mut text, self.name());
        match self.values() {
            Values::Zero => {}
            Values::One(a) => push_value(&mut text, a),
            Values::Two(a, b) => {
                push_value(&mut text, a);
                push_value(&mut text, b);
            }
            Values::Three(a, b, c) => {
                push_value(&mut text, a);
                push_value(&mut text, b);
                push_value(&mut text, c);
            }
        }
        text
    }
}

// One number as the only value.
fn one_number(number: u64) -> Values
    ensures texts { value_texts result ≡ decimal number ∷ [] }
    ensures short { AreShort result }
{
    Values::One(Value::Number(number))
}

// Two numbers as the only values.
fn two_numbers(first: u64, second: u64) -> Values
    ensures texts { value_texts result ≡ decimal first ∷ decimal second ∷ [] }
    ensures short { AreShort result }
{
    Values::Two(Value::Number(first), Value::Number(second))
}

// The values of a refused layer: the volume, the fault's name, and the fault's number where it has one.
fn layer_values(v: Id, fault: LayerFault) -> Values
    ensures texts { value_texts result ≡ id_text v.0 ∷ layer_fault_words fault }
    ensures short { AreShort result }
{
    let name = Value::Word(fault.name());
    match fault.value() {
        None => Values::Two(Value::Identifier(v), name),
        Some(number) => Values::Three(Value::Identifier(v), name, Value::Number(number)),
    }
}

impl fmt::Display for Refusal {
    ghost output = { λ refusal. Some (refusal_text refusal) };

    fn fmt<W: fmt::Write>(&self, f: &mut fmt::Formatter<W>) -> fmt::Result {
        let text = self.text();
        f.write_str(text.as_str())
    }
}

/// Pushes a refusal's text into reserved room: it takes no memory.
pub fn push_refusal(text: &mut Vec<u8>, refusal: &Refusal)
    requires room { length text.old.items + REFUSAL_ROOM ≤ vec_capacity text.old }
    ensures items { text.new.items ≡ text.old.items ++ refusal_text refusal.now }
    ensures len { length text.new.items ≤ length text.old.items + REFUSAL_ROOM }
    ensures capacity { vec_capacity text.old ≤ vec_capacity text.new }
{
    let refusal_text = refusal.text();
    push_all(text, refusal_text.as_bytes())
}

#[cfg(test)]
mod tests;
