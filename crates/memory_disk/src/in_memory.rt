// A shared folder in memory, whichever calls it is told to fail in.
ghost use Rattle.std.specs.Prelude.{◌≡◌, ◌≢◌, ℕ, ◌+◌, ◌-◌, ◌*◌, ◌/◌, ◌^◌, ◌<◌, ◌≤◌, ◌↔◌, min, Some, IsTrue, Contains, if◌then◌else◌, Option};
ghost use Rattle.shared_disk.specs.Calls.{Told};
ghost use Rattle.shared_disk.specs.Content.{Content};
ghost use Rattle.shared_disk.specs.Crash.{DownLeaves};
ghost use Rattle.shared_disk.specs.Limits.{IsSameRoom};
ghost use Rattle.shared_disk.specs.WellFormed.{IsHost, IsWellFormed};
ghost use Rattle.memory_disk.specs.Held.{held};
ghost use Rattle.memory_disk.specs.Turns.{AreTaken};
ghost use Rattle.std.proofs.Common.{subst};
ghost use Rattle.std.proofs.Props.{props};
ghost use Rattle.std.proofs.lemmas.Option.{same_Some};

use crate::counts::{bump, count};
use crate::failing::FailingCalls;
use crate::picks::Picks;
use crate::store::Store;
use sd_names::{Dir, HostId, Name, Place};
use shared_disk::{DiskAnswer, Exchanged, SharedDisk};

/// A shared folder in memory, which fails in the calls that it is told to fail in. It takes its memory at once and
/// keeps only sectors that were written. Each folder but the root, each file, each sector on the medium and each
/// unsynced write of a sector is one unit; a call that would need more units than its room fails. A call that fails
/// changes nothing.
#[derive(Drop)]
pub struct InMemory<F> {
    pub(crate) failing: F,
    pub(crate) picks: Picks,
    pub(crate) calls: u64,
    pub(crate) faults: u64,
    pub(crate) store: Store,
    ghost faults_fit: { faults < 2 ^ 64 },
    ghost well_formed: { IsWellFormed (held store) } by { Prim.hlevel props },
}

// Says in its contract what every host's number is.
fn know(host: HostId)
    ensures { IsHost host }
{
    let _ = host.get();
}

impl<F: FailingCalls> InMemory<F> {
    // Counts a call, and answers whether it is one that fails.
    fn fails(&mut self) -> bool
        ensures calls { self.new.calls ≡ min (self.old.calls + 1) (2 ^ 64 - 1) }
        ensures faults { self.new.faults ≡ (if result then min (self.old.faults + 1) (2 ^ 64 - 1) else self.old.faults) }
        ensures store { self.new.store ≡ self.old.store }
        ensures failing { F.numbers self.new.failing ≡ F.numbers self.old.failing }
        ensures listed { IsTrue result ↔ Contains (F.numbers self.old.failing) self.old.calls }
    {
        let listed = self.failing.has(self.calls);
        bump(&mut self.calls);
        if listed {
            bump(&mut self.faults);
        }
        listed
    }
}

impl<F: FailingCalls> SharedDisk for InMemory<F> {
    ghost use Rattle.memory_disk.specs.Held.{limits_with};
    ghost use Rattle.memory_disk.specs.Parts.{picks_of};

    ghost content = { λ m. Some (held m.store) };

    ghost faults = { λ m. m.faults };

    ghost calls = { λ m. m.calls };

    ghost limits = { λ m. Some (limits_with (F.numbers m.failing) m.store) };

    fn read_at(
        &mut self,
        host: HostId,
        place: Place,
        at: u64,
        into: &mut [u8],
    ) -> Result<usize, DiskAnswer> {
        if self.fails() {
            return Err(DiskAnswer::Failed);
        }
        self.store.read_at(host, place, at, into)
    }

    fn write_at(
        &mut self,
        host: HostId,
        place: Place,
        at: u64,
        bytes: &[u8],
    ) -> Result<(), DiskAnswer> {
        if self.fails() {
            return Err(DiskAnswer::Failed);
        }
        know(host);
        let answer = self.store.write_at(host, place, at, bytes);
        count(&mut self.faults, answer);
        answer
    }

    fn sync(&mut self, host: HostId, place: Place) -> Result<(), DiskAnswer> {
        if self.fails() {
            return Err(DiskAnswer::Failed);
        }
        self.store.sync(host, place)
    }

    fn create(&mut self, host: HostId, place: Place, length: u64) -> Result<(), DiskAnswer> {
        if self.fails() {
            return Err(DiskAnswer::Failed);
        }
        know(host);
        let answer = self.store.create(host, place, length);
        count(&mut self.faults, answer);
        answer
    }

    fn length(&mut self, _host: HostId, place: Place) -> Result<u64, DiskAnswer> {
        if self.fails() {
            return Err(DiskAnswer::Failed);
        }
        self.store.length(place)
    }

    fn make_dir(&mut self, _host: HostId, dir: Dir) -> Result<(), DiskAnswer> {
        if self.fails() {
            return Err(DiskAnswer::Failed);
        }
        let answer = self.store.make_dir(dir);
        count(&mut self.faults, answer);
        answer
    }

    fn grow(&mut self, _host: HostId, place: Place, length: u64) -> Result<(), DiskAnswer> {
        if self.fails() {
            return Err(DiskAnswer::Failed);
        }
        self.store.grow(place, length)
    }

    fn rename(&mut self, _host: HostId, from: Place, to: Name) -> Result<(), DiskAnswer> {
        if self.fails() {
            return Err(DiskAnswer::Failed);
        }
        self.store.rename(from, to)
    }

    fn remove(&mut self, _host: HostId, place: Place) -> Result<(), DiskAnswer> {
        if self.fails() {
            return Err(DiskAnswer::Failed);
        }
        self.store.remove(place)
    }

    fn remove_dir(&mut self, _host: HostId, dir: Dir) -> Result<(), DiskAnswer> {
        if self.fails() {
            return Err(DiskAnswer::Failed);
        }
        self.store.remove_dir(dir)
    }

    fn move_dir(&mut self, _host: HostId, from: Dir, to: Dir) -> Result<(), DiskAnswer> {
        if self.fails() {
            return Err(DiskAnswer::Failed);
        }
        self.store.move_dir(from, to)
    }

    fn next_name(
        &mut self,
        _host: HostId,
        dir: Dir,
        after: Option<Name>,
    ) -> Result<Option<Name>, DiskAnswer> {
        if self.fails() {
            return Err(DiskAnswer::Failed);
        }
        self.store.next_name(dir, after)
    }

    fn next_dir(
        &mut self,
        _host: HostId,
        dir: Dir,
        after: Option<Dir>,
    ) -> Result<Option<Dir>, DiskAnswer> {
        if self.fails() {
            return Err(DiskAnswer::Failed);
        }
        self.store.next_dir(dir, after)
    }

    fn exchange(
        &mut self,
        host: HostId,
        place: Place,
        sector: u64,
        expect: &[u8; 512],
        next: &[u8; 512],
    ) -> Result<Exchanged, DiskAnswer> {
        if self.fails() {
            return Err(DiskAnswer::Failed);
        }
        let answer = self.store.exchange(host, place, sector, expect, next);
        count(&mut self.faults, answer.map(|_| ()));
        answer
    }

    fn down(&mut self, host: HostId)
        ensures faults { self.new.faults ≡ self.old.faults }
        ensures counted { self.new.calls ≡ self.old.calls }
        ensures call { Told (Some (held self.old.store)) (Some (held self.new.store)) (λ d e. DownLeaves d host e) }
        ensures limits { Told (Some (limits_with (F.numbers self.old.failing) self.old.store)) (Some (limits_with (F.numbers self.new.failing) self.new.store)) IsSameRoom }
        ensures picks { AreTaken (picks_of self.old) (picks_of self.new) }
    {
        self.store.down(host, &mut self.picks);
    }

    fn fault_count(&self) -> u64 {
        self.faults
    }

    ghost well_formed = { λ m d tells. subst IsWellFormed (same_Some (held m.store) d tells) m.well_formed };
}
