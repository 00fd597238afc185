// What can be wrong with a text or with a layer.
ghost use Rattle.std.specs.Prelude.{◌≡◌, ◌≤◌, length};
ghost use Rattle.sd_names.specs.Fault.{domain_fault_words, volume_fault_word, layer_fault_name, layer_fault_value};
ghost use Rattle.sd_names.specs.Key.{key_name};
ghost use Rattle.sd_names.specs.Value.{value_texts, AreShort};

use crate::value::{Value, Values};

/// A key of a domain's or a volume's text.
#[derive(Clone, Copy, Debug, PartialEq, Eq)]
pub enum Key {
    /// `TYPE`
    Alloc,
    /// `CAP`
    Cap,
    /// `CLASS`
    Class,
    /// `CTIME`
    Ctime,
    /// `DESCRIPTION`
    Description,
    /// `DISKTYPE`
    DiskType,
    /// `DOMAIN`
    Domain,
    /// `FORMAT`
    Format,
    /// `GEN`
    Gen,
    /// `IMAGE`
    Image,
    /// `LEGALITY`
    Legality,
    /// `MASTER_VERSION`
    MasterVersion,
    /// `MERGED`
    Merged,
    /// `MTIME`
    Mtime,
    /// `POOL_DOMAINS`
    PoolDomains,
    /// `POOL_UUID`
    PoolUuid,
    /// `PUUID`
    Puuid,
    /// `ROLE`
    Role,
    /// `SDUUID`
    SdUuid,
    /// `_SHA_CKSUM`
    ShaCksum,
    /// `SIZE`
    Size,
    /// `VERSION`
    Version,
    /// `VOLTYPE`
    VolType,
}

/// The first thing wrong with a domain's text.
#[derive(Clone, Copy, Debug)]
pub enum DomainFault {
    /// The text has more than 8,192 bytes.
    TooLong,
    /// The line of this number, from 1, has no `=`.
    BadLine(u32),
    /// The key isn't there.
    MissingKey(Key),
    /// The key's value isn't one that it may have.
    BadValue(Key),
    /// The digest that the text has, and the one that its lines have (SHA-1, FIPS 180-4).
    Checksum([u8; 20], [u8; 20]),
    /// There was no memory to read the text.
    Memory,
}

/// The first thing wrong with a volume's text.
#[derive(Clone, Copy, Debug)]
pub enum VolumeFault {
    /// The text has more than 8,192 bytes.
    TooLong,
    /// No line `EOF` closes the text.
    NoEof,
    /// The line of this number, from 1, has no `=`.
    BadLine(u32),
    /// The key isn't there.
    MissingKey(Key),
    /// The key's value isn't one that it may have.
    BadValue(Key),
    /// There was no memory to read the text.
    Memory,
}

/// The first thing wrong with a qcow2 layer. A place is an offset in the file, in bytes.
#[derive(Clone, Copy, Debug, PartialEq, Eq)]
pub enum LayerFault {
    /// The file has fewer than 512 bytes.
    Short,
    /// The magic of the header differs.
    Magic,
    /// The version is neither 2 nor 3.
    Version,
    /// `cluster_bits` is below 12 or above 21.
    Bits,
    /// `crypt_method` isn't 0.
    Encrypted,
    /// `nb_snapshots` isn't 0.
    Snapshots,
    /// This bit of the incompatible features is the lowest that is set.
    Feature(u32),
    /// `refcount_order` isn't 4.
    RefcountOrder,
    /// The header's fields, extensions or names lie where they may not.
    HeaderShape,
    /// The header's size, in bytes, is below the volume's capacity or past what its L1 table can map.
    Size(u64),
    /// The L2 entry at this place is of a compressed cluster.
    Compressed(u64),
    /// The entry at this place has a bit that it may not have, or an offset off the clusters.
    MixedBits(u64),
    /// The entry or header field at this place names a cluster past the file's end.
    OutOfFile(u64),
    /// The cluster at this place is named twice.
    Shared(u64),
    /// The cluster at this place is named and has the count 0.
    LowRefcount(u64),
    /// The L2 entry at this place is of a cluster past the capacity.
    Tail(u64),
}

impl Key {
    /// The key as it is written.
    pub fn name(self) -> &'static str
        ensures name { result.now ≡ key_name self }
        ensures short { length result.now ≤ 14 }
    {
        match self {
            Key::Alloc => "TYPE",
            Key::Cap => "CAP",
            Key::Class => "CLASS",
            Key::Ctime => "CTIME",
            Key::Description => "DESCRIPTION",
            Key::DiskType => "DISKTYPE",
            Key::Domain => "DOMAIN",
            Key::Format => "FORMAT",
            Key::Gen => "GEN",
            Key::Image => "IMAGE",
            Key::Legality => "LEGALITY",
            Key::MasterVersion => "MASTER_VERSION",
            Key::Merged => "MERGED",
            Key::Mtime => "MTIME",
            Key::PoolDomains => "POOL_DOMAINS",
            Key::PoolUuid => "POOL_UUID",
            Key::Puuid => "PUUID",
            Key::Role => "ROLE",
            Key::SdUuid => "SDUUID",
            Key::ShaCksum => "_SHA_CKSUM",
            Key::Size => "SIZE",
            Key::Version => "VERSION",
            Key::VolType => "VOLTYPE",
        }
    }
}

impl DomainFault {
    /// The values that a refusal prints for the fault.
    pub(crate) fn values(&self) -> Values
        ensures texts { value_texts result ≡ domain_fault_words self.now }
        ensures short { AreShort result }
    {
        match *self {
            DomainFault::TooLong => Values::One(Value::Word("TooLong")),
            DomainFault::BadLine(line) => {
                Values::Two(Value::Word("BadLine"), Value::Number(u64::from(line)))
            }
            DomainFault::MissingKey(key) => {
                Values::Two(Value::Word("MissingKey"), Value::Word(key.name()))
            }
            DomainFault::BadValue(key) => {
                Values::Two(Value::Word("BadValue"), Value::Word(key.name()))
            }
            DomainFault::Checksum(found, computed) => Values::Three(
                Value::Word("Checksum"),
                Value::Digest(found),
                Value::Digest(computed),
            ),
            DomainFault::Memory => Values::One(Value::Word("Memory")),
        }
    }
}

impl VolumeFault {
    /// The word in which a refusal prints the fault: the key, where a key is at fault.
    pub fn word(&self) -> &'static str
        ensures word { result.now ≡ volume_fault_word self.now }
        ensures short { length result.now ≤ 14 }
    {
        match *self {
            VolumeFault::TooLong => "TooLong",
            VolumeFault::NoEof => "NoEof",
            VolumeFault::BadLine(_) => "BadLine",
            VolumeFault::MissingKey(key) => key.name(),
            VolumeFault::BadValue(key) => key.name(),
            VolumeFault::Memory => "Memory",
        }
    }
}

impl LayerFault {
    /// The fault's name.
    pub fn name(&self) -> &'static str
        ensures name { result.now ≡ layer_fault_name self.now }
        ensures short { length result.now ≤ 13 }
    {
        match self {
            LayerFault::Short => "Short",
            LayerFault::Magic => "Magic",
            LayerFault::Version => "Version",
            LayerFault::Bits => "Bits",
            LayerFault::Encrypted => "Encrypted",
            LayerFault::Snapshots => "Snapshots",
            LayerFault::Feature(_) => "Feature",
            LayerFault::RefcountOrder => "RefcountOrder",
            LayerFault::HeaderShape => "HeaderShape",
            LayerFault::Size(_) => "Size",
            LayerFault::Compressed(_) => "Compressed",
            LayerFault::MixedBits(_) => "MixedBits",
            LayerFault::OutOfFile(_) => "OutOfFile",
            LayerFault::Shared(_) => "Shared",
            LayerFault::LowRefcount(_) => "LowRefcount",
            LayerFault::Tail(_) => "Tail",
        }
    }

    /// The number that stands behind the name, for the faults that have one.
    pub fn value(&self) -> Option<u64>
        ensures { result ≡ layer_fault_value self.now }
    {
        match *self {
            LayerFault::Feature(bit) => Some(u64::from(bit)),
            LayerFault::Size(size) => Some(size),
            LayerFault::Compressed(at) => Some(at),
            LayerFault::MixedBits(at) => Some(at),
            LayerFault::OutOfFile(at) => Some(at),
            LayerFault::Shared(at) => Some(at),
            LayerFault::LowRefcount(at) => Some(at),
            LayerFault::Tail(at) => Some(at),
            LayerFault::Short
            | LayerFault::Magic
            | LayerFault::Version
            | LayerFault::Bits
            | LayerFault::Encrypted
            | LayerFault::Snapshots
            | LayerFault::RefcountOrder
            | LayerFault::HeaderShape => None,
        }
    }
}
