// A shared folder in memory that fails for want of room alone.
ghost use Rattle.std.specs.Prelude.{◌≡◌, ℕ, ◌≤◌, [], Some, IfOk};
ghost use Rattle.shared_disk.specs.Content.{Content, IsEmpty};

use crate::failing::NoCalls;
use crate::in_memory::InMemory;
use crate::picks::{Pick, Picks};
use crate::store::Store;
use sd_names::NoMemory;
use std::alloc::Global;

/// A shared folder in memory that fails only in a call that would need more units than its room.
pub type Honest = InMemory<NoCalls>;

impl InMemory<NoCalls> {
    ghost use Rattle.memory_disk.specs.Parts.{calls_of, faults_of, content_of_honest, limits_of_honest, picks_of, room_of_honest, units_of_honest};

    /// An empty folder with room for so many units.
    pub fn new(alloc: Global, picks: Vec<Pick>, room: u64) -> Result<Honest, NoMemory>
        ensures empty { IfOk result (λ h. (d : Content) × (content_of_honest h ≡ Some d) × IsEmpty d) }
        ensures room { IfOk result (λ h. room_of_honest h ≡ room) }
        ensures picks { IfOk result (λ h. picks_of h ≡ picks.items) }
        ensures used { IfOk result (λ h. units_of_honest h ≡ 0) }
        ensures calls { IfOk result (λ h. calls_of h ≡ 0) }
        ensures faults { IfOk result (λ h. faults_of h ≡ 0) }
        ensures limits { IfOk result (λ h. limits_of_honest h ≡ Some (record { units = 0; room = room; failing = [] })) }
    {
        let turns = Picks::new(picks);
        match Store::new(alloc, room as usize) {
            Ok(store) => Ok(InMemory {
                failing: NoCalls,
                picks: turns,
                calls: 0,
                faults: 0,
                store,
            }),
            Err(_) => Err(NoMemory),
        }
    }

    /// How many units are in use: at most the room.
    pub fn used(&self) -> u64
        ensures is { result ≡ units_of_honest self.now }
        ensures fits { result ≤ room_of_honest self.now }
    {
        self.store.used() as u64
    }
}
