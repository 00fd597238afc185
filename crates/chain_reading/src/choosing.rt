// What a read does next, decided without the disk.
ghost use Rattle.std.specs.Prelude.{◌≡◌, ◌≤◌};
ghost use Rattle.chain_reading.specs.Choosing.{IsFit, IsNext};

use crate::asked::Asked;
use crate::laying::first_missing;
use crate::part::ReadPart;
use crate::running::Run;
use qcow_format::Entry;

/// What comes next in a volume.
#[derive(Clone, Copy, Debug)]
pub(crate) enum Next {
    /// The run is read.
    Read,
    /// No sector is missing that the volume has: the next volume is asked.
    Pass,
    /// These sectors of a raw volume are a run.
    Take(Run),
    /// The cluster of the first sector behind this run is looked up.
    Look(Run),
}

/// What an entry of a cluster comes to.
#[derive(Clone, Copy, Debug)]
pub(crate) enum Fit {
    /// The run is read first.
    Read,
    /// The cluster's sectors belong to this run.
    Take(Run),
    /// The sectors of the part up to this one are zeros.
    Zeros(usize),
    /// The volume doesn't hold the sectors of the part up to this one.
    Skip(usize),
}

impl ReadPart {
    /// What comes next in a volume, where no entry is known.
    pub(crate) fn next(&self, asked: &Asked, count: usize) -> Next
        requires { count ≤ 128 }
        ensures { IsNext self.now asked.now count result }
    {
        let end = asked.end(self.first, count);
        let at = first_missing(&self.missing, self.run.to, end);
        let waits = !self.run.is_empty();
        if waits && (at >= end || at > self.run.to || asked.cluster.is_none()) {
            return Next::Read;
        }
        if at >= end {
            return Next::Pass;
        }
        match asked.cluster {
            None => Next::Take(Run {
                sector: self.first + at as u64,
                from: at,
                to: end,
            }),
            Some(_) if waits => Next::Look(self.run),
            Some(_) => Next::Look(Run::none(at)),
        }
    }

    /// What the entry of the cluster of the first sector behind the run comes to.
    pub(crate) fn fit(&self, asked: &Asked, entry: Entry, count: usize) -> Fit
        requires { count ≤ 128 }
        ensures { IsFit self.now asked.now count entry result }
    {
        let end = asked.end(self.first, count);
        let past = asked.cluster_end(self.first, self.run.to, end);
        let empty = self.run.is_empty();
        match entry {
            Entry::Data(place) => {
                let sector = place / 512 + asked.offset(self.first, self.run.to);
                if empty {
                    return Fit::Take(Run {
                        sector,
                        from: self.run.to,
                        to: past,
                    });
                }
                if self.run.is_followed_by(sector) {
                    return Fit::Take(Run {
                        sector: self.run.sector,
                        from: self.run.from,
                        to: past,
                    });
                }
                Fit::Read
            }
            Entry::Zero(_) if empty => Fit::Zeros(past),
            Entry::Absent if empty => Fit::Skip(past),
            _ => Fit::Read,
        }
    }
}
