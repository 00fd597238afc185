// How the unsynced sectors of a host are settled when it goes down.
ghost use Rattle.std.specs.Prelude.{◌≡◌, ◌⊎◌, ◌≤◌, true, IfSome, get_or, vec_len};
ghost use Rattle.shared_disk.specs.Crash.{IsSector};

/// How a sector that a host had not synced is settled when the host goes down.
#[derive(Clone, Copy, Debug)]
pub enum Pick {
    /// As it is on the medium.
    Old,
    /// As it was written last.
    New,
    /// Filled with this byte, in a file that the host made and had not synced; as it is on the medium in any other.
    Byte(u8),
}

/// Picks that are taken in turn, the first again after the last. Where there are none, each is New.
#[derive(Drop)]
pub(crate) struct Picks {
    picks: Vec<Pick>,
    turn: usize,
    ghost within: { turn ≤ vec_len picks },
}

impl Picks {
    ghost use Rattle.memory_disk.specs.Turns.{to_come, turned};

    pub(crate) fn new(picks: Vec<Pick>) -> Picks
        ensures { to_come result ≡ picks.items }
    {
        Picks { picks, turn: 0 }
    }

    /// Whether one of them is a byte.
    pub(crate) fn have_byte(&self) -> bool {
        for pick in &self.picks {
            if let Pick::Byte(_) = pick {
                return true;
            }
        }
        false
    }

    /// The next one.
    pub(crate) fn next(&mut self) -> Pick
        ensures pick { result ≡ get_or (to_come self.old) 0 Pick.New }
        ensures turned { to_come self.new ≡ turned 1 (to_come self.old) }
    {
        let at = if self.turn < self.picks.len() {
            self.turn
        } else {
            0
        };
        if at >= self.picks.len() {
            return Pick::New;
        }
        self.turn = at + 1;
        self.picks[at]
    }
}

/// A sector that is filled with a byte.
pub(crate) fn filled(byte: u8) -> [u8; 512]
    ensures { IsSector result }
{
    [byte; 512]
}

/// What a pick makes of a sector, if anything else than what is on the medium: `last` is the host's last write of it, and
/// `fresh` tells whether the host made its file and had not synced it.
pub(crate) fn picked(pick: Pick, last: [u8; 512], fresh: bool) -> Option<[u8; 512]>
    ensures { IfSome result (λ bytes. (bytes ≡ last) ⊎ ((fresh ≡ true) × IsSector bytes)) }
{
    match pick {
        Pick::Old => None,
        Pick::New => Some(last),
        Pick::Byte(byte) => { if fresh { Some(filled(byte)) } else { None } }
    }
}
