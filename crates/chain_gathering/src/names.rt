// The names of an image's volumes in its folder.
ghost use Rattle.std.specs.Prelude.{◌≡◌};
ghost use Rattle.sd_names.specs.Place.{NameHasIds};
ghost use Rattle.chain_gathering.specs.Names.{name_of, volume_name};

use sd_names::{Id, Name};

/// A file of a volume: its own, or its text.
#[derive(Clone, Copy, Debug)]
pub(crate) enum VolumeName {
    /// `<v>`
    Data(Id),
    /// `<v>.meta`
    Text(Id),
}

impl VolumeName {
    /// The file of a volume that has a name. Other names, as those of leftover files, have none.
    pub(crate) fn of(name: Name) -> Option<VolumeName>
        ensures { result ≡ volume_name name }
    {
        match name {
            Name::Volume(v) => Some(VolumeName::Data(v)),
            Name::Meta(v) => Some(VolumeName::Text(v)),
            _ => None,
        }
    }

    /// The file's name.
    pub(crate) fn name(self) -> Name
        ensures { result ≡ name_of self }
    {
        match self {
            VolumeName::Data(v) => Name::Volume(v),
            VolumeName::Text(v) => Name::Meta(v),
        }
    }
}

/// A name's identifier has sixteen bytes. It does nothing: a proof that needs the fact calls it.
#[inline]
pub(crate) fn has_ids(name: &Name)
    ensures { NameHasIds name.now }
{
    match name {
        Name::Metadata | Name::MetadataNew | Name::Leases | Name::Inbox | Name::Outbox => {}
        Name::Volume(id)
        | Name::Meta(id)
        | Name::MetaNew(id)
        | Name::MetaVolatile(id)
        | Name::VolumeLease(id)
        | Name::Task(id)
        | Name::TaskNew(id) => id.has_sixteen_bytes(),
    }
}
