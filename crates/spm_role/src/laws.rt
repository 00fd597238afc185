// Laws of the manager's role: contracts of functions that do nothing.
ghost use Rattle.std.specs.Prelude.{◌≡◌, ◌<◌, ◌-◌, ◌^◌, List, []};
ghost use Rattle.lease_area.specs.Move.{version_of};
ghost use Rattle.lease_area.specs.declared.sector.Sector.{Sector};
ghost use Rattle.spm_role.specs.History.{IsHistory};

/// Where sector 0 makes only allowed moves and holds what it held, below the last version, it made no move: nobody became
/// the manager, or gave the role up, in between.
pub fn nobody_led_in_between()
    ensures { (first last : Sector) (moves : List Sector) → IsHistory first moves last → version_of last < 2 ^ 63 - 1 → last ≡ first → moves ≡ [] }
{}
