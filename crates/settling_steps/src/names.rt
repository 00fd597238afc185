// Temporary names in an image's folder.
ghost use Rattle.std.specs.Prelude.{◌≡◌};
ghost use Rattle.sd_names.specs.Place.{NameHasIds};
ghost use Rattle.settling_steps.specs.Names.{name_of, temporary_name};

use sd_names::{Id, Name};

/// A text beside that of a volume, which is being written, or which a cut write left.
#[derive(Clone, Copy, Debug)]
pub(crate) enum Temporary {
    /// `<v>.meta.new`
    New(Id),
    /// `<v>.meta.volatile`
    Volatile(Id),
}

impl Temporary {
    /// The temporary text that has a name. Other names have none.
    pub(crate) fn of(name: Name) -> Option<Temporary>
        ensures { result ≡ temporary_name name }
    {
        match name {
            Name::MetaNew(v) => Some(Temporary::New(v)),
            Name::MetaVolatile(v) => Some(Temporary::Volatile(v)),
            _ => None,
        }
    }

    /// Its name.
    pub(crate) fn name(self) -> Name
        ensures { result ≡ name_of self }
    {
        match self {
            Temporary::New(v) => Name::MetaNew(v),
            Temporary::Volatile(v) => Name::MetaVolatile(v),
        }
    }
}

/// A name's identifier has sixteen bytes. It does nothing: a proof that needs the fact calls it.
#[inline]
pub(crate) fn has_ids(name: &Name)
    ensures { NameHasIds name.now }
{
    match name {
        Name::Metadata | Name::MetadataNew | Name::Leases | Name::Inbox | Name::Outbox => {}
        Name::Volume(id)
        | Name::Meta(id)
        | Name::MetaNew(id)
        | Name::MetaVolatile(id)
        | Name::VolumeLease(id)
        | Name::Task(id)
        | Name::TaskNew(id) => id.has_sixteen_bytes(),
    }
}
