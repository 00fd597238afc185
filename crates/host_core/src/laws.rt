// Laws of what a host knows: contracts of functions that do nothing.
ghost use Rattle.host_core.specs.Laws.{BootsKnow, DownsKeep, OwnedChangesKeep};

/// What a host that is up knows stays true where another host changes only what it may, and where another one goes down.
pub fn hosts_keep_knowing()
    ensures owned { OwnedChangesKeep }
    ensures down { DownsKeep }
{}

/// A host that isn't up, and boots, knows all that it has to.
pub fn booted_hosts_know()
    ensures { BootsKnow }
{}
