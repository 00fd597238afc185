// The folders and files of a new domain.
ghost use Rattle.std.specs.Prelude.{◌≡◌, ◌*◌};
ghost use Rattle.pool_making.specs.Layout.{area_after, area_name, area_size, folder_after, folder_of};

use sd_names::{Dir, Id, Name};

/// The folders of a domain, in the order in which they are made.
#[derive(Clone, Copy, Debug)]
pub enum Folder {
    Domain,
    DomMd,
    Images,
    Master,
    Tasks,
}

/// The files of a domain that begin as zeros, in the order in which they are made.
#[derive(Clone, Copy, Debug)]
pub enum Area {
    /// The lease sectors: 524,288 bytes.
    Leases,
    /// A box of 4,096 bytes for each number from 0 to 250: 1,028,096 bytes.
    Inbox,
    /// The same.
    Outbox,
}

impl Folder {
    /// The folder of the domain `sd`.
    pub(crate) fn of(self, sd: Id) -> Dir
        ensures { result ≡ folder_of sd self }
    {
        match self {
            Folder::Domain => Dir::Domain(sd),
            Folder::DomMd => Dir::DomMd(sd),
            Folder::Images => Dir::Images(sd),
            Folder::Master => Dir::Master(sd),
            Folder::Tasks => Dir::Tasks(sd),
        }
    }

    /// The folder that is made after it.
    pub(crate) fn next(self) -> Option<Folder>
        ensures { result ≡ folder_after self }
    {
        match self {
            Folder::Domain => Some(Folder::DomMd),
            Folder::DomMd => Some(Folder::Images),
            Folder::Images => Some(Folder::Master),
            Folder::Master => Some(Folder::Tasks),
            Folder::Tasks => None,
        }
    }
}

impl Area {
    /// The file's name.
    pub(crate) fn name(self) -> Name
        ensures { result ≡ area_name self }
    {
        match self {
            Area::Leases => Name::Leases,
            Area::Inbox => Name::Inbox,
            Area::Outbox => Name::Outbox,
        }
    }

    /// Its length in bytes.
    pub(crate) fn bytes(self) -> u64
        ensures { result ≡ 512 * area_size self }
    {
        match self {
            Area::Leases => 524_288,
            Area::Inbox | Area::Outbox => 1_028_096,
        }
    }

    /// The file that is made after it.
    pub(crate) fn next(self) -> Option<Area>
        ensures { result ≡ area_after self }
    {
        match self {
            Area::Leases => Some(Area::Inbox),
            Area::Inbox => Some(Area::Outbox),
            Area::Outbox => None,
        }
    }
}
