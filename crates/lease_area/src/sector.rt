// A lease sector, and the bytes that spell it.
ghost use Rattle.std.specs.Prelude.{◌≡◌, ◌≤◌, ◌<◌, ◌^◌, true, IfSome, Some};
ghost use Rattle.lease_area.specs.Move.{image_of, owner_of, version_of};
ghost use Rattle.lease_area.specs.Record.{IsOwner};
ghost use Rattle.lease_area.specs.Sector.{IsRecord, IsSector, is_owner, kind_code, kind_of, record_bytes, record_in, record_with, sector_bytes, sector_in};
ghost use Rattle.lease_area.specs.declared.sector.Sector.{Sector as AnySector};

use byte_parts::put;
use byteorder::{BigEndian, ByteOrder};
use sd_names::Id;
use std::marker::Model;

/// What a lease is held for.
#[derive(Clone, Copy, Debug, PartialEq, Eq)]
pub enum Kind {
    /// Nobody holds it.
    Free,
    /// A guest runs on the image. In sector 0: the host is the manager of the pool.
    Guest,
    /// The manager of the pool works on the image.
    Task,
}

/// A lease. Its ranges are part of the type: whoever holds one needs no test of its numbers.
#[derive(Clone, Copy, Debug, PartialEq, Eq)]
pub struct LeaseRecord {
    pub kind: Kind,
    /// The number of the host that holds it, 1 to 250; 0 exactly where it is free.
    pub owner: u8,
    /// How often it was taken, below 2^63.
    pub version: u64,
    /// Whose lease it is; zeros in sector 0.
    pub image: Id,
}

impl Model for LeaseRecord {
    ghost use Rattle.std.specs.Prelude.{◌<◌, ◌^◌};
    ghost use Rattle.lease_area.specs.Record.{Fields, IsOwner};

    ghost Value = { Fields };

    ghost view = { λ r. record { kind = r.kind; owner = r.owner; version = r.version; image = r.image } };

    ghost invariant = { λ r. IsOwner r.kind r.owner × (r.version < 2 ^ 63) };

    ghost inverse = { λ v. record { kind = v.kind; owner = v.owner; version = v.version; image = v.image } };
}

/// What a sector of the leases file holds.
#[derive(Clone, Copy, Debug, PartialEq, Eq)]
pub enum Sector {
    /// Zeros: no image has it.
    Empty,
    Lease(LeaseRecord),
}

/// Lease versions are below this number.
const VERSIONS: u64 = 1 << 63;

// The kind of a code.
fn kind_of(code: u8) -> Option<Kind>
    ensures { result ≡ kind_of code }
{
    if code == 0 {
        Some(Kind::Free)
    } else if code == 1 {
        Some(Kind::Guest)
    } else if code == 2 {
        Some(Kind::Task)
    } else {
        None
    }
}

// The code of a kind.
fn code_of(kind: Kind) -> u8
    ensures { result ≡ kind_code kind }
{
    match kind {
        Kind::Free => 0,
        Kind::Guest => 1,
        Kind::Task => 2,
    }
}

// Whether a kind may have an owner.
fn is_owner(kind: Kind, owner: u8) -> bool
    ensures exact { result ≡ is_owner kind owner }
    ensures owner { result ≡ true → IsOwner kind owner }
{
    match kind {
        Kind::Free => owner == 0,
        Kind::Guest | Kind::Task => 1 <= owner && owner <= 250,
    }
}

// The lease of a kind whose bytes these are.
fn record_with(bytes: &[u8; 512], kind: Kind) -> Option<LeaseRecord>
    ensures found { IfSome result (λ r. IsRecord r × (bytes.now ≡ record_bytes r)) }
    ensures exact { result ≡ record_with bytes.now (Some kind) }
{
    let (owner, version) = (bytes[5], BigEndian::read_u64(&bytes[8..16]));
    if !is_owner(kind, owner) || version >= VERSIONS {
        return None;
    }
    let mut image = [0; 16];
    image.copy_from_slice(&bytes[16..32]);
    let image = Id(image);
    image.has_sixteen_bytes();
    if spelled(kind, owner, version, &image) == *bytes {
        Some(LeaseRecord {
            kind,
            owner,
            version,
            image,
        })
    } else {
        None
    }
}

// The lease whose bytes these are.
fn record_in(bytes: &[u8; 512]) -> Option<LeaseRecord>
    ensures found { IfSome result (λ r. IsRecord r × (bytes.now ≡ record_bytes r)) }
    ensures exact { result ≡ record_in bytes.now }
{
    match kind_of(bytes[4]) {
        Some(kind) => record_with(bytes, kind),
        None => None,
    }
}

// The sector whose bytes these are.
fn sector_in(bytes: &[u8; 512]) -> Option<Sector>
    ensures found { IfSome result (λ s. IsSector s × (bytes.now ≡ sector_bytes s)) }
    ensures exact { result ≡ sector_in bytes.now }
{
    if *bytes == [0; 512] {
        return Some(Sector::Empty);
    }
    match record_in(bytes) {
        Some(record) => Some(Sector::Lease(record)),
        None => None,
    }
}

impl Sector {
    /// The sector that these bytes spell, if they are those of one and no others.
    pub fn read(bytes: &[u8; 512]) -> Option<Sector>
        // What is read is written so.
        ensures found { IfSome result (λ s. IsSector s × (bytes.now ≡ sector_bytes s)) }
        // What is written so is read.
        ensures only { (s : AnySector) → IsSector s → bytes.now ≡ sector_bytes s → result ≡ Some s }
        ensures exact { result ≡ sector_in bytes.now }
    {
        sector_in(bytes)
    }

    /// The bytes of the sector: zeros where it is empty, else `LEAS`, the kind (0 free, 1 guest, 2 task), the owner, the
    /// version from byte 8 on and the image from byte 16 on; all other bytes are zeros.
    pub fn write(&self) -> [u8; 512]
        ensures { result ≡ sector_bytes self.now }
    {
        match self {
            Sector::Empty => [0; 512],
            Sector::Lease(record) => record.write(),
        }
    }

    /// The number of the host that holds the sector, 0 where nobody does.
    pub fn owner(&self) -> u8
        ensures value { result ≡ owner_of self.now }
        ensures fits { result ≤ 250 }
    {
        match self {
            Sector::Lease(record) => record.owner,
            Sector::Empty => 0,
        }
    }

    /// How often the sector was taken, 0 where it is empty.
    pub fn version(&self) -> u64
        ensures value { result ≡ version_of self.now }
        ensures fits { result < 2 ^ 63 }
    {
        match self {
            Sector::Lease(record) => record.version,
            Sector::Empty => 0,
        }
    }

    /// The image, zeros where the sector is empty.
    pub(crate) fn image(&self) -> Id
        ensures { result ≡ image_of self.now }
    {
        match self {
            Sector::Lease(record) => record.image,
            Sector::Empty => Id::ZERO,
        }
    }
}

impl LeaseRecord {
    // The bytes of a lease.
    fn write(&self) -> [u8; 512]
        ensures { result ≡ record_bytes self.now }
    {
        spelled(self.kind, self.owner, self.version, &self.image)
    }
}

// The bytes that spell these fields.
fn spelled(kind: Kind, owner: u8, version: u64, image: &Id) -> [u8; 512]
    ensures { result ≡ record_bytes (record { kind = kind; owner = owner; version = version; image = image.now }) }
{
    let mut bytes = [0; 512];
    put(&mut bytes, 0, b"LEAS");
    put(&mut bytes, 4, &[code_of(kind), owner, 0, 0]);
    put(&mut bytes, 8, &version.to_be_bytes());
    put(&mut bytes, 16, &image.0);
    bytes
}
