// A scan of the leases file for an image, in eight reads.
ghost use Rattle.std.specs.Prelude.{◌≡◌, ◌<◌};
ghost use Rattle.shared_disk.specs.Content.{sector_of};

use crate::Scanned;
use crate::exchange::leases_file;
use sd_names::{HostId, Id, Turn};
use shared_disk::{SharedDisk, refusal_for};

/// How many bytes a step reads.
const PIECE: usize = 65536;

/// A scan of a domain's leases file for an image.
#[derive(Clone, Copy, Debug)]
pub struct Scan {
    sd: Id,
    image: Id,
    made: u8,
    seen: Scanned,
    ghost few: { made < 8 },
}

// A sector of what was read.
fn sector(room: &[u8; PIECE], k: usize) -> [u8; 512]
    requires { k < 128 }
    ensures { result ≡ sector_of room.now k }
{
    let mut sector = [0; 512];
    sector.copy_from_slice(&room[512 * k..512 * k + 512]);
    sector
}

impl Scan {
    ghost use Rattle.std.specs.Prelude.{ℕ, ◌*◌, ◌/◌, ◌+◌, ◌≤◌, List, length};
    ghost use Rattle.shared_disk.specs.Calls.{Told};
    ghost use Rattle.shared_disk.specs.Content.{sector_of};
    ghost use Rattle.shared_disk.specs.Step.{EndsOnlyBy, IsDiskRefusal, NearsEnd, StepCounts};
    ghost use Rattle.lease_area.specs.Noted.{noted, nothing_seen};
    ghost use Rattle.lease_area.specs.Scan.{HasSeen, IsEighth, IsNext, ScanSteps, scan_domain, scan_image, scan_left, seen_by, steps_made};

    /// A scan of the domain's leases for the image.
    pub fn begin(sd: Id, image: Id) -> Scan
        ensures domain { scan_domain result ≡ sd }
        ensures image { scan_image result ≡ image }
        ensures made { steps_made result ≡ 0 }
        ensures seen { seen_by result ≡ nothing_seen }
    {
        Scan {
            sd,
            image,
            made: 0,
            seen: Scanned {
                found: None,
                empty: None,
            },
        }
    }

    /// Reads the next 128 sectors, by one call of the disk. The eighth step is the last. 122 where there is no leases file.
    pub fn step<D: SharedDisk>(
        self,
        host: HostId,
        disk: &mut D,
        buffer: &mut [u8; PIECE],
    ) -> Turn<Scan, Scanned, ()>
        ensures counts { StepCounts (D.faults disk.old) (D.faults disk.new) (D.calls disk.old) (D.calls disk.new) result }
        ensures refusals { EndsOnlyBy IsDiskRefusal result }
        ensures keeps { NearsEnd (IsNext self) scan_left (scan_left self) result }
        ensures eight { IsEighth self result }
        ensures content { Told (D.content disk.old) (D.content disk.new) (ScanSteps self host (D.faults disk.new) buffer.old buffer.new result) }
    {
        let from = 65536 * u64::from(self.made);
        match disk.read_at(host, leases_file(self.sd), from, buffer) {
            Ok(count) => {
                let seen = self.look(buffer, count / 512);
                self.next(seen)
            }
            Err(answer) => Turn::Ended((), refusal_for(answer, disk)),
        }
    }

    // What was seen before, and in the first sectors of what was read.
    fn look(&self, room: &[u8; PIECE], count: usize) -> Scanned
        requires { count ≤ 128 }
        ensures { result ≡ noted (scan_image self.now) (128 * steps_made self.now) room.now count (seen_by self.now) }
    {
        let mut seen = self.seen;
        for k in 0..count {
            let slot = 128 * u16::from(self.made) + k as u16;
            seen = seen.note(self.image, slot, &sector(room, k));
        }
        seen
    }

    // The next step, or the end.
    fn next(self, seen: Scanned) -> Turn<Scan, Scanned, ()>
        ensures { HasSeen self seen result }
    {
        if self.made == 7 {
            return Turn::Done(seen);
        }
        Turn::More(Scan {
            sd: self.sd,
            image: self.image,
            made: self.made + 1,
            seen,
        })
    }
}
