// The places that clusters of the virtual disk get.
ghost use Rattle.std.specs.Prelude.{◌≡◌, ◌≢◌, ◌*◌, ◌+◌, ◌/◌, ◌^◌, ◌<◌, ℕ, List, None, Some};
ghost use Rattle.qcow_format.specs.Bytes.{bytes_of, put};

use byteorder::{BigEndian, ByteOrder};
use qcow_format::{Entry, entry_bits};

/// Clusters of the virtual disk whose entries stand in one sector of an L2 table, 64 of them, and the place in the file
/// that each gets, in bytes.
#[derive(Clone, Copy, Debug)]
pub struct Links {
    group: u64,
    places: [Option<u64>; 64],
    ghost few: { group < 2 ^ 58 },
}

impl Links {
    ghost use Rattle.link_laws.specs.Links.{laid};
    ghost use Rattle.layer_linking.specs.Links.{group_of, to_of};

    /// One cluster, by its number, and its place.
    pub fn one(cluster: u64, place: u64) -> Links
        ensures group { group_of result ≡ cluster / 64 }
        ensures here { to_of result cluster ≡ Some place }
        ensures others { (k : ℕ) → k ≢ cluster → to_of result k ≡ None }
    {
        Links::none(cluster / 64).with(cluster, place)
    }

    // No cluster yet.
    fn none(group: u64) -> Links
        requires { group < 2 ^ 58 }
        ensures group { group_of result ≡ group }
        ensures to { (k : ℕ) → to_of result k ≡ None }
    {
        let places: [Option<u64>; 64] = [None; 64];
        Links { group, places }
    }

    /// Which sector of 64 entries it is, counted over all L2 tables: a cluster's number divided by 64.
    pub fn group(&self) -> u64
        ensures { result ≡ group_of self.now }
    {
        self.group
    }

    /// One more cluster, whose entry stands in the same sector. Where it has a place already, it gets this one.
    pub fn with(self, cluster: u64, place: u64) -> Links
        requires { cluster / 64 ≡ group_of self }
        ensures group { group_of result ≡ group_of self }
        ensures here { to_of result cluster ≡ Some place }
        ensures others { (k : ℕ) → k ≢ cluster → to_of result k ≡ to_of self k }
    {
        let mut places = self.places;
        places[(cluster % 64) as usize] = Some(place);
        Links {
            group: self.group,
            places,
        }
    }

    /// The sector of entries, with those of these clusters laid in as data.
    pub(crate) fn lay(&self, sector: [u8; 512]) -> [u8; 512]
        ensures { result ≡ laid (to_of self.now) (64 * group_of self.now) 64 sector }
    {
        let mut sector = sector;
        for m in 0..64 {
            if let Some(place) = self.places[m] {
                put_word(&mut sector, m, entry_bits(Entry::Data(place)));
            }
        }
        sector
    }
}

/// Writes a number of 8 bytes over the one with this index.
#[tactic(auto, unfolding(qcow_format::specs::Bytes::put, qcow_format::specs::Bytes::bytes_of))]
pub(crate) fn put_word(sector: &mut [u8; 512], index: usize, word: u64)
    requires { index < 64 }
    ensures { sector.new ≡ put (index * 8) (bytes_of 8 word) sector.old }
{
    BigEndian::write_u64(&mut sector[index * 8..], word);
}
