// Laws of what a host that recovers a pool knows: contracts of functions that do next to nothing.
ghost use Rattle.pool_recovering.specs.Laws.{DownsKeepRecoveries, OthersKeepRecoveries};
ghost use Rattle.pool_recovering.specs.Turns.{RecoveriesTurn};

use task_settling::settlings_keep_knowing;

/// What the manager of a pool knows while it recovers it stays true where another host changes only what it may, of the pool and
/// of the disk, and where another one goes down.
pub fn recoveries_keep_knowing()
    ensures others { OthersKeepRecoveries }
    ensures down { DownsKeepRecoveries }
{
    settlings_keep_knowing();
}

/// What a step of a recovery has done is a turn of the host's machine that fits its answer, in `spm-start` and in `recover`.
pub fn recoveries_are_turns()
    ensures { RecoveriesTurn }
{}
