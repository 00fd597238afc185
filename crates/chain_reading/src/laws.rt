// Laws of reading: contracts of functions that do nothing.
ghost use Rattle.std.specs.Prelude.{◌≡◌, ◌≢◌, ◌+◌, ◌*◌, ◌≤◌, ℕ, true, List, length};
ghost use Rattle.sd_names.specs.declared.id.Id.{Id};
ghost use Rattle.shared_disk.specs.Content.{Content, sector_of};
ghost use Rattle.shared_disk.specs.Crash.{DownLeaves};
ghost use Rattle.chain_model.specs.Chain.{IsBelow};
ghost use Rattle.chain_model.specs.Flat.{IsFlat, IsSectorOf};
ghost use Rattle.chain_model.specs.Folder.{Volumes, folder_of};
ghost use Rattle.chain_model.specs.Growth.{AreLonger, MayHaveGrown};
ghost use Rattle.chain_model.specs.Records.{is_legal};
ghost use Rattle.chain_gathering.specs.Knowing.{AreSettled, volumes_in};
ghost use Rattle.volume_chain.specs.Chain.{dir_in, path_in, place_in, target_of};
ghost use Rattle.volume_chain.specs.Knowing.{HaveLengths, KnowsChain};
ghost use Rattle.volume_chain.specs.declared.chain.Chain.{Chain};
ghost use Rattle.chain_reading.specs.Knowing.{IsReadAs, Knows, KnowsImage, place_on, records_of};
ghost use Rattle.chain_reading.specs.Reading.{IsAlikeFrom, IsAskedFrom, first_sector, volume_of};
ghost use Rattle.chain_reading.specs.declared.part.ReadPart.{ReadPart as AnyRead};

/// A law: what a read knows stays known whatever else changes on the disk, while the volumes that it asks can be read and
/// their files are those that they were, or longer. They can where the chain knows its image and nothing is unsynced in it;
/// while the files and layers of other volumes change (`untouched`); where another host goes down (`down`); and where volume
/// files get longer (`grown`).
pub fn knowledge_survives()
    ensures read { (p : AnyRead) (c : Chain) (host : ℕ) (x : Volumes) (part : List ℕ) (d e : Content) → Knows p c host x part d → KnowsImage c (volume_of p) host x e → Knows p c host x part e }
    ensures longer { (c : Chain) (v : Id) (host : ℕ) (x : Volumes) (d e : Content) → KnowsImage c v host x d → KnowsChain c host e → AreSettled (dir_in (target_of c)) e
        → AreLonger (volumes_in (dir_in (target_of c)) d) (volumes_in (dir_in (target_of c)) e) → KnowsImage c v host x e }
    ensures begun { (c : Chain) (v : Id) (host : ℕ) (d : Content) → KnowsChain c host d → AreSettled (dir_in (target_of c)) d → KnowsImage c v host (volumes_in (dir_in (target_of c)) d) d }
    ensures below { (c : Chain) (v w : Id) (host : ℕ) (x : Volumes) (d : Content) → place_on v (path_in c) ≤ place_on w (path_in c) → KnowsImage c v host x d → KnowsImage c w host x d }
    ensures untouched { (c b : Chain) (v : Id) (host : ℕ) (x : Volumes) (d e : Content) → IsAlikeFrom c b v → ((w : Id) → IsAskedFrom c v w → e.file (place_in (target_of c) w) ≡ d.file (place_in (target_of c) w))
        → KnowsImage c v host x d → KnowsImage b v host x e }
    ensures down { (c : Chain) (v : Id) (host other : ℕ) (x : Volumes) (d e : Content) → host ≢ other → DownLeaves d other e → KnowsImage c v host x d → KnowsImage c v host x e }
    ensures grown { (c : Chain) (v : Id) (host : ℕ) (x : Volumes) (d e : Content) → MayHaveGrown (folder_of (dir_in (target_of c)) d) (folder_of (dir_in (target_of c)) e) → HaveLengths (target_of c) e
        → KnowsImage c v host x d → KnowsImage c v host x e }
{}

/// A law: where each LEGAL volume reads as some list, a part that was read of one is that list there.
pub fn parts_are_flat()
    ensures { (p : AnyRead) (c : Chain) (x : Volumes) (part : List ℕ) (flats : Id → ℕ → List ℕ) (us : List Id) (j : ℕ) → IsReadAs p c x part → IsFlat (records_of c) flats x
        → is_legal (records_of c) (volume_of p) ≡ true → IsBelow (records_of c) (volume_of p) us → 512 * (j + 1) ≤ length part → IsSectorOf (records_of c) (volume_of p) (first_sector p + j)
        → sector_of part j ≡ flats (volume_of p) (first_sector p + j) }
{}
