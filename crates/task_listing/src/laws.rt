// Laws of listings of tasks: contracts of functions that do nothing.
ghost use Rattle.task_listing.specs.Laws.{DownsKeepListings, OthersKeepListings};

/// What the manager of a pool knows while it lists the tasks stays true where another host changes only what it may, and where
/// another one goes down.
pub fn listings_keep_knowing()
    ensures others { OthersKeepListings }
    ensures down { DownsKeepListings }
{}
