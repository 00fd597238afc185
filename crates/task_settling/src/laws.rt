// Laws of what a host that settles a task knows: contracts of functions that do next to nothing.
ghost use Rattle.task_settling.specs.Laws.{BegunKnow, DownsKeepSettlings, OthersKeepSettlings};
ghost use Rattle.task_settling.specs.Turns.{SettlingsTurn};

use task_files::task_knowledge_survives_others;

/// A settling that has begun knows all that it has to, where the disk stands for a pool, its host is the manager, and its task is
/// the open one.
pub fn a_begun_settling_knows_its_pool()
    ensures { BegunKnow }
{}

/// What the manager of a pool knows while it settles a task stays true where another host changes only what it may, of the pool
/// and of the disk, and where another one goes down.
pub fn settlings_keep_knowing()
    ensures others { OthersKeepSettlings }
    ensures down { DownsKeepSettlings }
{
    task_knowledge_survives_others();
}

/// What a step of a settling has done is a turn of the host's machine that fits its answer, in `spm-start` and in `recover`.
pub fn settlings_are_turns()
    ensures { SettlingsTurn }
{}
