// A shared folder in memory that fails in the calls that it is told to fail in.
ghost use Rattle.std.specs.Prelude.{◌≡◌, ℕ, ◌+◌, ◌-◌, Some, IfOk, length};
ghost use Rattle.shared_disk.specs.Calls.{IsAligned, Told};
ghost use Rattle.shared_disk.specs.Content.{Content, IsEmpty};
ghost use Rattle.memory_disk.specs.Placed.{Places, Tells};

use crate::failing::ListedCalls;
use crate::in_memory::InMemory;
use crate::picks::{Pick, Picks};
use crate::store::Store;
use sd_names::{NoMemory, Place};
use std::alloc::Global;

/// A shared folder in memory, which fails in the calls that it is told to fail in.
pub type Memory = InMemory<ListedCalls>;

impl InMemory<ListedCalls> {
    ghost use Rattle.memory_disk.specs.Parts.{calls_of, faults_of, IsOnlyStore, content_of_memory, failing_of_memory, limits_of_memory, picks_of, room_of_memory, units_of_memory};

    /// An empty folder with room for so many units. The calls with the numbers in `failing` fail; the first call has
    /// the number 0.
    pub fn new(
        alloc: Global,
        picks: Vec<Pick>,
        failing: Vec<u64>,
        room: u64,
    ) -> Result<Memory, NoMemory>
        ensures empty { IfOk result (λ m. (d : Content) × (content_of_memory m ≡ Some d) × IsEmpty d) }
        ensures room { IfOk result (λ m. room_of_memory m ≡ room) }
        ensures picks { IfOk result (λ m. picks_of m ≡ picks.items) }
        ensures failing { IfOk result (λ m. failing_of_memory m ≡ failing.items) }
        ensures calls { IfOk result (λ m. calls_of m ≡ 0) }
        ensures faults { IfOk result (λ m. faults_of m ≡ 0) }
        ensures limits { IfOk result (λ m. limits_of_memory m ≡ Some (record { units = 0; room = room; failing = failing.items })) }
    {
        let turns = Picks::new(picks);
        match Store::new(alloc, room as usize) {
            Ok(store) => Ok(InMemory {
                failing: ListedCalls { calls: failing },
                picks: turns,
                calls: 0,
                faults: 0,
                store,
            }),
            Err(_) => Err(NoMemory),
        }
    }

    /// Makes a file with these bytes on the medium, in place of one that is there, and its folder and those above it where
    /// they aren't there. It takes room for the units that it adds, and is no call. The length of the bytes is a multiple
    /// of 512.
    pub fn put(&mut self, place: Place, bytes: &[u8]) -> Result<(), NoMemory>
        requires { IsAligned (length bytes.now) }
        ensures call { Told (content_of_memory self.old) (content_of_memory self.new) (λ d e. Places d place bytes.now result e) }
        ensures room { room_of_memory self.new ≡ room_of_memory self.old + (units_of_memory self.new - units_of_memory self.old) }
        ensures kept { IsOnlyStore self.old self.new }
    {
        match self.store.put(place, bytes) {
            Ok(()) => Ok(()),
            Err(_) => Err(NoMemory),
        }
    }

    /// Reads what is on the medium from the byte `at` on, to the end of the file or of `into`, and answers how many bytes
    /// that is; the rest of `into` is as it was. None where there is no such file. It is no call.
    pub fn bytes(&self, place: Place, at: u64, into: &mut [u8]) -> Option<usize>
        ensures { (d : Content) × (content_of_memory self.now ≡ Some d) × Tells d place at into.old into.new result }
    {
        self.store.bytes(place, at, into)
    }
}
