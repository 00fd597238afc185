// Folders and files of a shared folder.
ghost use Rattle.std.specs.Prelude.{◌≡◌, ◌↔◌, ◌≤◌, ◌+◌, ◌++◌, length, IsTrue};
ghost use Rattle.std.specs.Cmp.{IsTotalOrder};
ghost use Rattle.sd_names.specs.Id.{id_text};
ghost use Rattle.sd_names.specs.Place.{dir_path, name_text, place_path, name_rank, dir_cmp, name_cmp, place_cmp, parent_of, DirHasIds, NameHasIds, PlaceHasIds};
ghost use Rattle.sd_names.specs.declared.place.Dir.{Dir};
ghost use Rattle.sd_names.specs.declared.place.Name.{Name};
ghost use Rattle.sd_names.specs.declared.place.Place.{Place};

use crate::Id;
use arrayvec::ArrayString;
use std::cmp::Ordering;
use uuid::Uuid;

/// The text of a path. The longest has 139 bytes.
pub type PathText = ArrayString<160>;

// The text of an identifier, and what stands behind it.
fn id_then(id: &Id, rest: &str) -> PathText
    requires short { length rest.now ≤ 20 }
    ensures bytes { result.bytes ≡ id_text id.now.0 ++ rest.now }
    ensures len { length result.bytes ≡ 36 + length rest.now }
{
    let mut text = PathText::new();
    push_hyphenated(&mut text, id);
    text.push_str(rest);
    text
}

/// Pushes the 36 bytes of an identifier's text into a text of fixed room.
pub fn push_hyphenated(text: &mut PathText, id: &Id)
    requires room { length text.old.bytes + 36 ≤ 160 }
    ensures bytes { text.new.bytes ≡ text.old.bytes ++ id_text id.now.0 }
    ensures len { length text.new.bytes ≡ length text.old.bytes + 36 }
{
    let mut buffer = [0; 36];
    text.push_str(
        Uuid::from_bytes(id.0)
            .hyphenated()
            .encode_lower(&mut buffer),
    );
}

// A text of at most 20 bytes.
fn fixed(text: &str) -> PathText
    requires short { length text.now ≤ 20 }
    ensures bytes { result.bytes ≡ text.now }
{
    let mut name = PathText::new();
    name.push_str(text);
    name
}

// The path of an image's folder: the domain, what stands between, and the image.
fn image_path(sd: &Id, between: &str, image: &Id) -> PathText
    requires short { length between.now ≤ 16 }
    ensures bytes { result.bytes ≡ id_text sd.now.0 ++ between.now ++ id_text image.now.0 }
    ensures len { length result.bytes ≡ 72 + length between.now }
{
    let mut path = id_then(sd, between);
    push_hyphenated(&mut path, image);
    path
}

/// A folder of the store, below the shared folder.
#[derive(Clone, Copy, Debug, PartialEq, Eq)]
pub enum Dir {
    /// The shared folder itself.
    Root,
    /// `<sd>`
    Domain(Id),
    /// `<sd>/dom_md`
    DomMd(Id),
    /// `<sd>/images`
    Images(Id),
    /// `<sd>/images/<image>`
    Image(Id, Id),
    /// `<sd>/images/_remove_<image>`
    Removed(Id, Id),
    /// `<sd>/master`
    Master(Id),
    /// `<sd>/master/tasks`
    Tasks(Id),
}

/// The name of a file in its folder.
#[derive(Clone, Copy, Debug, PartialEq, Eq)]
pub enum Name {
    /// `metadata`
    Metadata,
    /// `metadata.new`
    MetadataNew,
    /// `leases`
    Leases,
    /// `inbox`
    Inbox,
    /// `outbox`
    Outbox,
    /// `<v>`
    Volume(Id),
    /// `<v>.meta`
    Meta(Id),
    /// `<v>.meta.new`
    MetaNew(Id),
    /// `<v>.meta.volatile`
    MetaVolatile(Id),
    /// `<v>.lease`
    VolumeLease(Id),
    /// `<t>`
    Task(Id),
    /// `<t>.new`
    TaskNew(Id),
}

/// A file of the store: its folder and its name there.
#[derive(Clone, Copy, Debug, PartialEq, Eq)]
pub struct Place {
    pub dir: Dir,
    pub name: Name,
}

impl Dir {
    /// Whether the two are one folder.
    pub fn is(&self, other: &Dir) -> bool
        ensures { IsTrue result ↔ (self.now ≡ other.now) }
    {
        self == other
    }

    /// The folder in which a folder stands. The shared folder stands in itself.
    pub fn parent(&self) -> Dir
        ensures { result ≡ parent_of self.now }
    {
        match *self {
            Dir::Root | Dir::Domain(_) => Dir::Root,
            Dir::DomMd(sd) | Dir::Images(sd) | Dir::Master(sd) => Dir::Domain(sd),
            Dir::Image(sd, _) | Dir::Removed(sd, _) => Dir::Images(sd),
            Dir::Tasks(sd) => Dir::Master(sd),
        }
    }

    // The folder's identifiers have sixteen bytes. It does nothing: a proof that needs the fact calls it.
    #[inline]
    fn has_ids(&self)
        ensures { DirHasIds self.now }
    {
        match self {
            Dir::Root => {}
            Dir::Domain(sd) | Dir::DomMd(sd) | Dir::Images(sd) | Dir::Master(sd) | Dir::Tasks(sd) =>
                sd.has_sixteen_bytes(),
            Dir::Image(sd, image) | Dir::Removed(sd, image) => {
                sd.has_sixteen_bytes();
                image.has_sixteen_bytes();
            }
        }
    }

    /// The folder's path below the shared folder, whose own is empty.
    pub fn path(&self) -> PathText
        ensures bytes { result.bytes ≡ dir_path self.now }
        ensures len { length result.bytes ≤ 88 }
    {
        match self {
            Dir::Root => PathText::new(),
            Dir::Domain(sd) => id_then(sd, ""),
            Dir::DomMd(sd) => id_then(sd, "/dom_md"),
            Dir::Images(sd) => id_then(sd, "/images"),
            Dir::Image(sd, image) => image_path(sd, "/images/", image),
            Dir::Removed(sd, image) => image_path(sd, "/images/_remove_", image),
            Dir::Master(sd) => id_then(sd, "/master"),
            Dir::Tasks(sd) => id_then(sd, "/master/tasks"),
        }
    }

    /// Compares the bytes of the two paths.
    pub fn cmp(&self, other: &Dir) -> Ordering
        ensures order { result ≡ dir_cmp self.now other.now }
        ensures equal { (result ≡ Ordering.Equal) ↔ (self.now ≡ other.now) }
    {
        self.has_ids();
        other.has_ids();
        let path = self.path();
        let other_path = other.path();
        path.as_bytes().cmp(&other_path.as_bytes())
    }
}

impl Name {
    /// Whether the two are one name.
    pub fn is(&self, other: &Name) -> bool
        ensures { IsTrue result ↔ (self.now ≡ other.now) }
    {
        self == other
    }

    // The name's identifier has sixteen bytes. It does nothing: a proof that needs the fact calls it.
    #[inline]
    fn has_ids(&self)
        ensures { NameHasIds self.now }
    {
        match self {
            Name::Metadata | Name::MetadataNew | Name::Leases | Name::Inbox | Name::Outbox => {}
            Name::Volume(id)
            | Name::Meta(id)
            | Name::MetaNew(id)
            | Name::MetaVolatile(id)
            | Name::VolumeLease(id)
            | Name::Task(id)
            | Name::TaskNew(id) => id.has_sixteen_bytes(),
        }
    }

    /// The name's text.
    pub fn text(&self) -> PathText
        ensures bytes { result.bytes ≡ name_text self.now }
        ensures len { length result.bytes ≤ 50 }
    {
        match self {
            Name::Metadata => fixed("metadata"),
            Name::MetadataNew => fixed("metadata.new"),
            Name::Leases => fixed("leases"),
            Name::Inbox => fixed("inbox"),
            Name::Outbox => fixed("outbox"),
            Name::Volume(v) => id_then(v, ""),
            Name::Meta(v) => id_then(v, ".meta"),
            Name::MetaNew(v) => id_then(v, ".meta.new"),
            Name::MetaVolatile(v) => id_then(v, ".meta.volatile"),
            Name::VolumeLease(v) => id_then(v, ".lease"),
            Name::Task(t) => id_then(t, ""),
            Name::TaskNew(t) => id_then(t, ".new"),
        }
    }

    /// Compares the bytes of the two names. A volume comes before a task of the same name, which can't
    /// stand in its folder.
    pub fn cmp(&self, other: &Name) -> Ordering
        ensures order { result ≡ name_cmp self.now other.now }
        ensures equal { (result ≡ Ordering.Equal) ↔ (self.now ≡ other.now) }
    {
        self.has_ids();
        other.has_ids();
        let text = self.text();
        let other_text = other.text();
        text.as_bytes()
            .cmp(&other_text.as_bytes())
            .then(self.rank().cmp(&other.rank()))
    }

    // 1 for a task, and 0 for every other name.
    fn rank(&self) -> u8
        ensures { result ≡ name_rank self.now }
    {
        match self {
            Name::Task(_) => 1,
            _ => 0,
        }
    }
}

impl Place {
    /// Whether the two are one file.
    pub fn is(&self, other: &Place) -> bool
        ensures { IsTrue result ↔ (self.now ≡ other.now) }
    {
        self.dir.is(&other.dir) && self.name.is(&other.name)
    }

    // The place's identifiers have sixteen bytes. It does nothing: a proof that needs the fact calls it.
    #[inline]
    fn has_ids(&self)
        ensures { PlaceHasIds self.now }
    {
        self.dir.has_ids();
        self.name.has_ids();
    }

    /// The file's path below the shared folder.
    pub fn path(&self) -> PathText
        ensures bytes { result.bytes ≡ place_path self.now }
        ensures len { length result.bytes ≤ 139 }
    {
        let mut path = self.dir.path();
        if !path.is_empty() {
            path.push_str("/");
        }
        let name = self.name.text();
        path.push_str(name.as_str());
        path
    }

    /// Compares the bytes of the two paths. A volume comes before a task of the same path.
    pub fn cmp(&self, other: &Place) -> Ordering
        ensures order { result ≡ place_cmp self.now other.now }
        ensures equal { (result ≡ Ordering.Equal) ↔ (self.now ≡ other.now) }
    {
        self.has_ids();
        other.has_ids();
        let path = self.path();
        let other_path = other.path();
        path.as_bytes()
            .cmp(&other_path.as_bytes())
            .then(self.name.rank().cmp(&other.name.rank()))
    }
}

/// Folders are in a total order, in which equal folders are one.
pub fn dir_order_is_total()
    ensures total { IsTotalOrder dir_cmp }
    ensures equal { (a b : Dir) → DirHasIds a → DirHasIds b → dir_cmp a b ≡ Ordering.Equal → a ≡ b }
{}

/// Names are in a total order, in which equal names are one.
pub fn name_order_is_total()
    ensures total { IsTotalOrder name_cmp }
    ensures equal { (a b : Name) → NameHasIds a → NameHasIds b → name_cmp a b ≡ Ordering.Equal → a ≡ b }
{}

/// Files are in a total order, in which equal files are one.
pub fn place_order_is_total()
    ensures total { IsTotalOrder place_cmp }
    ensures equal { (a b : Place) → PlaceHasIds a → PlaceHasIds b → place_cmp a b ≡ Ordering.Equal → a ≡ b }
{}

#[cfg(test)]
mod tests;
