// Laws of what a host knows that becomes the manager: contracts of functions that do next to nothing.
ghost use Rattle.role_starting.specs.Laws.{DownsKeepStarts, OthersKeepStarts};

use pool_recovering::laws::recoveries_keep_knowing;
use role_taking::laws::takings_keep_knowing;

/// What a host knows while it becomes the manager stays true where another host changes only what it may, of the pool and of the
/// disk, and where another one goes down.
pub fn starts_keep_knowing()
    ensures others { OthersKeepStarts }
    ensures down { DownsKeepStarts }
{
    takings_keep_knowing();
    recoveries_keep_knowing();
}
