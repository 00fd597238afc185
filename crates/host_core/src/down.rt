// A host that goes down.
ghost use Rattle.std.specs.Prelude.{◌≡◌};
ghost use Rattle.shared_disk.specs.Calls.{Told};
ghost use Rattle.shared_disk.specs.Crash.{DownLeaves};
ghost use Rattle.host_core.specs.Downs.{GoesDown};

use crate::Host;
use crate::leading::Leading;
use shared_disk::SharedDisk;

impl Host {
    /// The host goes down, and the disk with it settles what the host had not synced. Its memory is gone, and so is its role;
    /// its leases stay in their sectors. That makes no call, and never fails.
    pub fn down<D: SharedDisk>(self, disk: &mut D)
        ensures faults { D.faults disk.new ≡ D.faults disk.old }
        ensures counted { D.calls disk.new ≡ D.calls disk.old }
        ensures leaves { Told (D.content disk.old) (D.content disk.new) (λ d e. DownLeaves d self.id e) }
        ensures content { Told (D.content disk.old) (D.content disk.new) (GoesDown self) }
    {
        let Host {
            alloc: _,
            id,
            moment: _,
            leading,
            work: _,
            steps: _,
            bytes: _,
        } = self;
        disk.down(id);
        match leading {
            Some(Leading { spm, begun: _ }) => spm.lost(),
            None => (),
        }
    }
}
