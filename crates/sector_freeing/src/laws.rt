// Laws of what a host that frees sectors knows: contracts of functions that do nothing.
ghost use Rattle.sector_freeing.specs.Laws.{BegunKnow, DownsKeepFreeings, FreedSpend, OthersKeepFreed, OthersKeepFreeings};
ghost use Rattle.sector_freeing.specs.Turns.{FreeingsEnd, FreeingsTurn};

/// A freeing that has begun knows all that it has to, where the disk stands for a pool, its host is the manager, the domain is
/// one of the pool's, and no task is open.
pub fn a_begun_freeing_knows_its_pool()
    ensures { BegunKnow }
{}

/// What the manager of a pool knows while it frees sectors, and of a domain whose sectors it has freed, stays true where another
/// host changes only what it may, of the pool and of the disk; and what it knows while it frees them where another one goes down.
pub fn freeings_keep_knowing()
    ensures others { OthersKeepFreeings }
    ensures freed { OthersKeepFreed }
    ensures down { DownsKeepFreeings }
{}

/// Where no image of any of its domains is held for a task, nothing is left to free in a pool.
pub fn freed_domains_leave_nothing()
    ensures { FreedSpend }
{}

/// What a step of a freeing has done is a turn of the host's machine that fits its answer, in `spm-start` and in `recover`: the
/// mark that frees is still to come behind it, since there may be other domains.
pub fn freeings_are_turns()
    ensures { FreeingsTurn }
{}

/// The last step of a freeing is the end of its verb, where nothing is left to free in the pool and no mark is behind.
pub fn a_freeing_ends_its_verb()
    ensures { FreeingsEnd }
{}
