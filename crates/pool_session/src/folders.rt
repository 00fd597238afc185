// The folders of a domain.
ghost use Rattle.std.specs.Prelude.{◌≡◌, ◌≢◌, ◌≤◌, ◌∷◌, [], List, Some, false, IfOk, MatchResult};
ghost use Rattle.sd_names.specs.declared.place.Dir.TheVariants.{Root};
ghost use Rattle.shared_disk.specs.Content.{Content, IsEmpty};
ghost use Rattle.sd_names.specs.Place.{parent_of};
ghost use Rattle.shared_disk.specs.Calls.{IsDirMade, Told};
ghost use Rattle.shared_disk.specs.Step.{ResultFaults};
ghost use Rattle.pool_session.specs.Fault.{IsFault, SameOrFault};
ghost use Rattle.pool_session.specs.FileCalls.{DirRefused};
ghost use Rattle.pool_session.specs.Folders.{AreMade, HasJust, HasSome, HasDomain, HasNoFolder, HasPartOfDomain, IsAmong, IsOrderly, IsUnderFirst, MayBeMade, folders_of, with_made};

use sd_names::{Dir, HostId, Id, Refusal};
use shared_disk::{SharedDisk, refusal_for};

/// Makes a folder. Where the disk tells what it holds, the folder above is there and this one isn't, it is refused only
/// for a fault of the disk, and is there or not then. One that is there isn't made again. On every disk, a refusal that isn't
/// a fault has changed nothing, and a fault has made this folder at the most.
pub fn make_dir<D: SharedDisk>(host: HostId, dir: Dir, disk: &mut D) -> Result<(), Refusal>
    requires { dir ≢ Root }
    ensures count { D.faults disk.old ≤ D.faults disk.new }
    ensures faults { ResultFaults (D.faults disk.old) (D.faults disk.new) result }
    ensures made { IfOk result (λ _. Told (D.content disk.old) (D.content disk.new) (λ d e. IsDirMade d dir e)) }
    ensures refused { MatchResult result (λ _. Unit {0}) (λ refusal. Told (D.content disk.old) (D.content disk.new) (DirRefused dir refusal)) }
    ensures content { (d : Content) (dirs : List Dir) → D.content disk.old ≡ Some d → HasJust dirs d
        → IsAmong dirs (parent_of dir) → (IsAmong dirs dir → ⊥)
        → (e : Content) × (D.content disk.new ≡ Some e)
        × MatchResult result (λ _. HasJust (dir ∷ dirs) e) (λ refusal. IsFault (D.faults disk.old) (D.faults disk.new) refusal × HasSome dirs (dir ∷ []) e) }
{
    match disk.make_dir(host, dir) {
        Ok(()) => Ok(()),
        Err(answer) => Err(refusal_for(answer, disk)),
    }
}

/// Makes folders, one after the other, of which each stands in one that is there by then. A fault leaves the first so many.
fn make_dirs<D: SharedDisk>(host: HostId, dirs: &[Dir], disk: &mut D) -> Result<(), Refusal>
    requires orderly { IsOrderly (Root ∷ []) dirs.now }
    requires under { IsUnderFirst dirs.now }
    ensures count { D.faults disk.old ≤ D.faults disk.new }
    ensures faults { ResultFaults (D.faults disk.old) (D.faults disk.new) result }
    ensures new { IfOk result (λ _. (d : Content) → D.content disk.old ≡ Some d → (q : Dir) → IsAmong dirs.now q → d.dir q ≡ false) }
    ensures made { MatchResult result
        (λ _. Told (D.content disk.old) (D.content disk.new) (AreMade dirs.now))
        (λ refusal. Told (D.content disk.old) (D.content disk.new) (SameOrFault refusal (MayBeMade dirs.now))) }
    ensures content { (d : Content) → D.content disk.old ≡ Some d → HasJust (Root ∷ []) d
        → (e : Content) × (D.content disk.new ≡ Some e)
        × MatchResult result (λ _. HasJust (with_made (Root ∷ []) dirs.now) e) (λ refusal. IsFault (D.faults disk.old) (D.faults disk.new) refusal × HasSome (Root ∷ []) dirs.now e) }
{
    for dir in dirs {
        make_dir(host, *dir, disk)?;
    }
    Ok(())
}

/// Makes the folders of a domain, none of which is there, in an empty folder. A fault leaves the first so many. On every disk
/// nothing else is changed, it is done only where it has made each of them, and a refusal that isn't a fault has changed
/// nothing.
pub fn make_folders<D: SharedDisk>(host: HostId, sd: Id, disk: &mut D) -> Result<(), Refusal>
    ensures count { D.faults disk.old ≤ D.faults disk.new }
    ensures faults { ResultFaults (D.faults disk.old) (D.faults disk.new) result }
    ensures new { IfOk result (λ _. HasNoFolder sd (D.content disk.old)) }
    ensures made { MatchResult result
        (λ _. Told (D.content disk.old) (D.content disk.new) (AreMade (folders_of sd)))
        (λ refusal. Told (D.content disk.old) (D.content disk.new) (SameOrFault refusal (MayBeMade (folders_of sd)))) }
    ensures content { (d : Content) → D.content disk.old ≡ Some d → IsEmpty d
        → (e : Content) × (D.content disk.new ≡ Some e)
        × MatchResult result (λ _. HasDomain sd e) (λ refusal. IsFault (D.faults disk.old) (D.faults disk.new) refusal × HasPartOfDomain sd e) }
{
    let dirs = [
        Dir::Domain(sd),
        Dir::DomMd(sd),
        Dir::Images(sd),
        Dir::Master(sd),
        Dir::Tasks(sd),
    ];
    make_dirs(host, &dirs, disk)
}
