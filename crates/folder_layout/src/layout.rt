// Which names and folders a folder of the store may hold, and the texts under which they stand there.
ghost use Rattle.std.specs.Prelude.{◌≡◌, ◌≢◌, ◌↔◌, ◌++◌, List, ℕ, [], IfSome, IfNone, Some, IsTrue, codes};
ghost use Rattle.sd_names.specs.Id.{IsIdBytes, id_text};
ghost use Rattle.sd_names.specs.declared.id.Id.{Id};
ghost use Rattle.sd_names.specs.declared.place.Dir.{Dir};
ghost use Rattle.sd_names.specs.declared.place.Dir.TheVariants.{Root, Domain, Images, Master};
ghost use Rattle.sd_names.specs.declared.place.Name.{Name};
ghost use Rattle.folder_layout.specs.Layout.{IsDomainFile, IsVolumeFile, IsTaskFile, HoldsName, IsNamed, IsFolderIn};

use sd_names::{Dir, Id, Name};

// The identifier whose lower-case text a text begins with, and what stands behind it.
fn read_id(text: &[u8]) -> Option<(Id, &[u8])>
    ensures text { IfSome result (λ found. text.now ≡ id_text found.0.0 ++ found.1.now) }
    ensures id { IfSome result (λ found. IsIdBytes found.0.0) }
    ensures refused { IfNone result ((id : Id) (rest : List ℕ) → IsIdBytes id.0 → text.now ≢ id_text id.0 ++ rest) }
{
    let (front, rest) = match text.split_at_checked(36) {
        Some(parts) => parts,
        None => return None,
    };
    let id = match Id::read(front) {
        Some(id) => id,
        None => return None,
    };
    id.has_sixteen_bytes();
    if id.text().as_slice() == front {
        Some((id, rest))
    } else {
        None
    }
}

// The identifier whose lower-case text a text is.
fn read_whole_id(text: &[u8]) -> Option<Id>
    ensures text { IfSome result (λ id. text.now ≡ id_text id.0) }
    ensures id { IfSome result (λ id. IsIdBytes id.0) }
    ensures refused { IfNone result ((id : Id) → IsIdBytes id.0 → text.now ≢ id_text id.0) }
{
    match read_id(text) {
        Some((id, rest)) => { if rest.is_empty() { Some(id) } else { None } }
        None => None,
    }
}

/// The name that a folder of the store may hold under a text.
pub fn read_name(dir: &Dir, text: &[u8]) -> Option<Name>
    ensures named { IfSome result (IsNamed (HoldsName dir.now) text.now) }
    ensures found { (name : Name) → IsNamed (HoldsName dir.now) text.now name → result ≡ Some name }
{
    match dir {
        Dir::DomMd(_) => read_domain_file(text),
        Dir::Image(_, _) => read_volume_file(text),
        Dir::Removed(_, _) => read_volume_file(text),
        Dir::Tasks(_) => read_task_file(text),
        Dir::Root | Dir::Domain(_) | Dir::Images(_) | Dir::Master(_) => None,
    }
}

// The name of a domain's own file.
fn read_domain_file(text: &[u8]) -> Option<Name>
    ensures named { IfSome result (IsNamed IsDomainFile text.now) }
    ensures refused { IfNone result ((name : Name) → ¬ IsNamed IsDomainFile text.now name) }
{
    if text == b"metadata".as_slice() {
        Some(Name::Metadata)
    } else if text == b"metadata.new".as_slice() {
        Some(Name::MetadataNew)
    } else if text == b"leases".as_slice() {
        Some(Name::Leases)
    } else if text == b"inbox".as_slice() {
        Some(Name::Inbox)
    } else if text == b"outbox".as_slice() {
        Some(Name::Outbox)
    } else {
        None
    }
}

// The name of a file of an image.
fn read_volume_file(text: &[u8]) -> Option<Name>
    ensures named { IfSome result (IsNamed IsVolumeFile text.now) }
    ensures refused { IfNone result ((name : Name) → ¬ IsNamed IsVolumeFile text.now name) }
{
    let (id, rest) = match read_id(text) {
        Some(parts) => parts,
        None => return None,
    };
    if rest == b"".as_slice() {
        Some(Name::Volume(id))
    } else if rest == b".meta".as_slice() {
        Some(Name::Meta(id))
    } else if rest == b".meta.new".as_slice() {
        Some(Name::MetaNew(id))
    } else if rest == b".meta.volatile".as_slice() {
        Some(Name::MetaVolatile(id))
    } else if rest == b".lease".as_slice() {
        Some(Name::VolumeLease(id))
    } else {
        None
    }
}

// The name of a task's file.
fn read_task_file(text: &[u8]) -> Option<Name>
    ensures named { IfSome result (IsNamed IsTaskFile text.now) }
    ensures refused { IfNone result ((name : Name) → ¬ IsNamed IsTaskFile text.now name) }
{
    let (id, rest) = match read_id(text) {
        Some(parts) => parts,
        None => return None,
    };
    if rest == b"".as_slice() {
        Some(Name::Task(id))
    } else if rest == b".new".as_slice() {
        Some(Name::TaskNew(id))
    } else {
        None
    }
}

/// The folder that a folder of the store may hold under a text.
pub fn read_dir(dir: &Dir, text: &[u8]) -> Option<Dir>
    ensures inside { IfSome result (IsFolderIn dir.now text.now) }
    ensures found { (q : Dir) → IsFolderIn dir.now text.now q → result ≡ Some q }
{
    match dir {
        Dir::Root => read_domain(text),
        Dir::Domain(sd) => read_domain_folder(sd, text),
        Dir::Images(sd) => read_image_folder(sd, text),
        Dir::Master(sd) => read_master_folder(sd, text),
        Dir::DomMd(_) | Dir::Image(_, _) | Dir::Removed(_, _) | Dir::Tasks(_) => None,
    }
}

// The folder of a domain.
fn read_domain(text: &[u8]) -> Option<Dir>
    ensures inside { IfSome result (IsFolderIn Root text.now) }
    ensures refused { IfNone result ((q : Dir) → ¬ IsFolderIn Root text.now q) }
{
    match read_whole_id(text) {
        Some(sd) => Some(Dir::Domain(sd)),
        None => None,
    }
}

// A folder of a domain.
fn read_domain_folder(sd: &Id, text: &[u8]) -> Option<Dir>
    ensures inside { IfSome result (IsFolderIn (Domain sd.now) text.now) }
    ensures refused { IfNone result ((q : Dir) → ¬ IsFolderIn (Domain sd.now) text.now q) }
{
    sd.has_sixteen_bytes();
    if text == b"dom_md".as_slice() {
        Some(Dir::DomMd(*sd))
    } else if text == b"images".as_slice() {
        Some(Dir::Images(*sd))
    } else if text == b"master".as_slice() {
        Some(Dir::Master(*sd))
    } else {
        None
    }
}

// The folder of an image, or of one that is being removed.
fn read_image_folder(sd: &Id, text: &[u8]) -> Option<Dir>
    ensures inside { IfSome result (IsFolderIn (Images sd.now) text.now) }
    ensures refused { IfNone result ((q : Dir) → ¬ IsFolderIn (Images sd.now) text.now q) }
{
    sd.has_sixteen_bytes();
    if text.len() == 36 {
        match read_whole_id(text) {
            Some(image) => Some(Dir::Image(*sd, image)),
            None => None,
        }
    } else {
        match read_removed_id(text) {
            Some(image) => Some(Dir::Removed(*sd, image)),
            None => None,
        }
    }
}

// The identifier behind the mark of an image that is being removed.
fn read_removed_id(text: &[u8]) -> Option<Id>
    ensures text { IfSome result (λ id. text.now ≡ codes "_remove_" ++ id_text id.0) }
    ensures id { IfSome result (λ id. IsIdBytes id.0) }
    ensures refused { IfNone result ((id : Id) → IsIdBytes id.0 → text.now ≢ codes "_remove_" ++ id_text id.0) }
{
    let (front, rest) = match text.split_at_checked(8) {
        Some(parts) => parts,
        None => return None,
    };
    if front == b"_remove_".as_slice() {
        read_whole_id(rest)
    } else {
        None
    }
}

// The folder of the tasks.
fn read_master_folder(sd: &Id, text: &[u8]) -> Option<Dir>
    ensures inside { IfSome result (IsFolderIn (Master sd.now) text.now) }
    ensures refused { IfNone result ((q : Dir) → ¬ IsFolderIn (Master sd.now) text.now q) }
{
    sd.has_sixteen_bytes();
    if text == b"tasks".as_slice() {
        Some(Dir::Tasks(*sd))
    } else {
        None
    }
}

/// Whether a name of the system is of something in the folder, and not of the folder itself or the one above it.
pub fn is_below(text: &[u8]) -> bool
    ensures { IsTrue result ↔ ((text.now ≢ []) × (text.now ≢ codes ".") × (text.now ≢ codes "..")) }
{
    if text == b"".as_slice() {
        return false;
    }
    if text == b".".as_slice() {
        return false;
    }
    text != b"..".as_slice()
}
