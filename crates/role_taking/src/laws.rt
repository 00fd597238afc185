// Laws of what a host that takes the role knows: contracts of functions that do nothing.
ghost use Rattle.role_taking.specs.Laws.{DownsKeepManagers, DownsKeepTakings, OthersKeepManagers, OthersKeepTakings};

/// What a host knows while it takes the role, and once it has read the list of domains behind that, stays true where another
/// host changes only what it may, and where another one goes down.
pub fn takings_keep_knowing()
    ensures others { OthersKeepTakings }
    ensures others_managed { OthersKeepManagers }
    ensures down { DownsKeepTakings }
    ensures down_managed { DownsKeepManagers }
{}
