// A host: its memory, and how it begins.
ghost use Rattle.std.specs.Prelude.{◌≡◌, MatchResult};
ghost use Rattle.sd_names.specs.declared.refusal.Refusal.TheVariants.{OutOfMemory};
ghost use Rattle.host_core.specs.Memory.{fresh};

use crate::{Leading, Work};
use sd_names::{HostId, Refusal};
use std::alloc::Global;
use std::marker::Model;

/// How many bytes a read gives at the most.
const ROOM: usize = 65_536;

/// A host that is up. A contract sees its memory. It can't be dropped, since it may hold the role of the manager.
#[derive(Debug)]
pub struct Host {
    pub(crate) alloc: Global,
    pub(crate) id: HostId,
    pub(crate) moment: u64,
    pub(crate) leading: Option<Leading>,
    pub(crate) work: Option<Work>,
    pub(crate) steps: u64,
    pub(crate) bytes: Vec<u8>,
}

impl Model for Host {
    ghost use Rattle.std.specs.Option.{option_map};
    ghost use Rattle.host_core.specs.Memory.{IsSound, Memory, leader_of};

    ghost Value = { Memory };

    ghost view = { λ s. record { id = s.id; moment = s.moment; leading = option_map leader_of s.leading; work = s.work; steps = s.steps; bytes = s.bytes.items } };

    ghost invariant = { λ s. IsSound s.id (option_map leader_of s.leading) s.work };
}

impl Host {
    /// A host that was just booted, at a moment in seconds since 1970: it runs no verb and isn't the manager. Refused for
    /// want of memory alone: it takes the room for what reads give.
    pub fn boot(alloc: Global, id: HostId, moment: u64) -> Result<Host, Refusal>
        ensures { MatchResult result (λ host. host ≡ fresh id moment) (λ refusal. refusal ≡ OutOfMemory) }
    {
        match Vec::with_capacity(alloc, ROOM) {
            Ok(bytes) => Ok(Host {
                alloc,
                id,
                moment,
                leading: None,
                work: None,
                steps: 0,
                bytes,
            }),
            Err(_) => Err(Refusal::OutOfMemory),
        }
    }

    /// What the last read gave.
    pub fn read_bytes(&self) -> &[u8]
        ensures { result.now ≡ self.now.bytes }
    {
        &self.bytes
    }
}
