// What a scan has seen.
ghost use Rattle.std.specs.Prelude.{◌≡◌, ◌<◌};

use crate::{LeaseRecord, Sector};
use sd_names::Id;
use std::marker::Model;

/// What a scan of the leases file saw, each sector as it was read at its moment. Numbers of sectors are 1 to 1,023; that
/// is part of the type.
#[derive(Clone, Copy, Debug)]
pub struct Scanned {
    /// The least sector that names the image, and its lease.
    pub found: Option<(u16, LeaseRecord)>,
    /// The least empty sector. Sector 0 is no image's.
    pub empty: Option<u16>,
}

impl Model for Scanned {
    ghost use Rattle.lease_area.specs.Record.{EmptyInArea, FoundInArea, Seen};

    ghost Value = { Seen };

    ghost view = { λ s. record { found = s.found; empty = s.empty } };

    ghost invariant = { λ s. FoundInArea s.found × EmptyInArea s.empty };

    ghost inverse = { λ v. record { found = v.found; empty = v.empty } };
}

impl Scanned {
    ghost use Rattle.lease_area.specs.Noted.{noted_one};
    ghost use Rattle.lease_area.specs.Sector.{sector_in};

    /// What was seen before, and in the sector with this number, which has these bytes.
    pub(crate) fn note(self, image: Id, slot: u16, bytes: &[u8; 512]) -> Scanned
        requires { slot < 1024 }
        ensures { result ≡ noted_one image slot (sector_in bytes.now) self }
    {
        if slot == 0 {
            return self;
        }
        match Sector::read(bytes) {
            Some(Sector::Empty) => Scanned {
                found: self.found,
                empty: self.empty.or(Some(slot)),
            },
            Some(Sector::Lease(record)) if record.image == image => Scanned {
                found: self.found.or(Some((slot, record))),
                empty: self.empty,
            },
            Some(Sector::Lease(_)) | None => self,
        }
    }
}
