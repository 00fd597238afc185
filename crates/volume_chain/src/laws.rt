// Laws of the opening of chains and of open chains: contracts of functions that do nothing.
ghost use Rattle.std.specs.Prelude.{◌≡◌, ◌≢◌, ◌+◌, ◌*◌, ◌≤◌, ◌<◌, ℕ, List, length, sum_by, Option};
ghost use Rattle.sd_names.specs.declared.id.Id.{Id as AnyId};
ghost use Rattle.sd_names.specs.declared.place.Name.{Name};
ghost use Rattle.shared_disk.specs.Content.{Content};
ghost use Rattle.shared_disk.specs.Crash.{DownLeaves};
ghost use Rattle.volume_meta.specs.declared.record.VolumeRecord.{VolumeRecord as AnyRecord};
ghost use Rattle.qcow_format.specs.declared.header.Header.{Header};
ghost use Rattle.layer_walk.specs.Left.{Antitone, positions_from};
ghost use Rattle.chain_model.specs.Folder.{HoldSameVolumes, Volumes, folder_of};
ghost use Rattle.chain_model.specs.Growth.{AreLonger, MayHaveGrown};
ghost use Rattle.chain_gathering.specs.Names.{cost_of};
ghost use Rattle.chain_gathering.specs.Steps.{IsPaid};
ghost use Rattle.volume_chain.specs.Chain.{dir_in, target_of};
ghost use Rattle.volume_chain.specs.Fresh.{IsBase, IsBaseLength, IsFreshChain, IsMade, target_for};
ghost use Rattle.volume_chain.specs.Knowing.{AreAloneTexts, HaveLengths, KnowsChain};
ghost use Rattle.volume_chain.specs.Left.{Enters, HasHeader, HaveTables, OpensTables, path_left, steps_left, tables_left};
ghost use Rattle.volume_chain.specs.Opening.{IsBegun, IsFit, Knows, Meets, Nears, folder, image, more, target_kept};
ghost use Rattle.volume_chain.specs.declared.chain.Chain.{Chain as AnyChain};
ghost use Rattle.volume_chain.specs.declared.opening.ChainOpening.{ChainOpening as AnyOpening};

/// A law: what a chain knows of its image stays known whatever else changes on the disk while the files of the image's
/// volumes and their texts stay; where another host goes down, if no other host has anything unsynced in the texts; and
/// where volume files get longer with zeros.
pub fn known_chains_stay_known()
    ensures untouched { (c : AnyChain) (host : ℕ) (d e : Content) → HoldSameVolumes (folder_of (dir_in (target_of c)) d) (folder_of (dir_in (target_of c)) e)
        → KnowsChain c host d → KnowsChain c host e }
    ensures down { (c : AnyChain) (host other : ℕ) (d e : Content) → host ≢ other → AreAloneTexts (target_of c) host d → DownLeaves d other e
        → KnowsChain c host d → KnowsChain c host e }
    ensures grown { (c : AnyChain) (host : ℕ) (d e : Content) → MayHaveGrown (folder_of (dir_in (target_of c)) d) (folder_of (dir_in (target_of c)) e) → HaveLengths (target_of c) e
        → KnowsChain c host d → KnowsChain c host e }
{}

/// A law: so does what an opening knows between its steps. Where volume files get longer, those whose length wasn't asked
/// yet are taken as long as they are then.
pub fn known_openings_stay_known()
    ensures untouched { (o : AnyOpening) (host : ℕ) (x : Volumes) (d e : Content) → e.dir (folder o) ≡ d.dir (folder o) → HoldSameVolumes (folder_of (folder o) d) (folder_of (folder o) e)
        → Knows o host x d → Knows o host x e }
    ensures down { (o : AnyOpening) (host other : ℕ) (x : Volumes) (d e : Content) → host ≢ other → DownLeaves d other e → Knows o host x d → Knows o host x e }
    ensures grown { (o : AnyOpening) (host : ℕ) (x : Volumes) (d e : Content) → e.dir (folder o) ≡ d.dir (folder o) → MayHaveGrown (folder_of (folder o) d) (folder_of (folder o) e)
        → HaveLengths (target_kept o) e → Knows o host x d → (y : Volumes) × AreLonger x y × Knows o host y e }
{}

/// A law: the chain of an image that is made anew is known once its files are made.
pub fn fresh_chains_are_known()
    ensures { (c : AnyChain) (sd id v : AnyId) (version bytes host : ℕ) (x : AnyRecord) (d : Content) → IsBase x → IsBaseLength x bytes
        → IsFreshChain c sd id version v x bytes → IsMade (target_for sd id version) v x bytes d → KnowsChain c host d }
{}

/// A law: how many steps an opening takes. `falls` of its steps makes one number fall, if the names that are listed are paid
/// for, the path that is opened costs `along` at the most, and the tables of its layers are so many. For N names and a path
/// of n volumes that number begins below 64 + 4 N + 32 n and what the layers' tables cost: T tables of q sectors cost 2 T q.
/// The tables of a layer are those of its file where that is known, and on every disk its positions at the most.
pub fn openings_are_short()
    ensures falls { (o next : AnyOpening) (cost : Option Name → ℕ) (heads : AnyId → Header) (tables : AnyId → ℕ → ℕ) (along : ℕ) → Nears o (more next) → Meets (IsPaid cost) o (more next)
        → IsFit o → ((v : AnyId) → Antitone (tables v)) → Enters heads tables along o next → OpensTables heads tables next
        → steps_left cost heads tables along next < steps_left cost heads tables along o }
    ensures begun { (o : AnyOpening) (sd id : AnyId) (version n : ℕ) (names : List Name) (heads : AnyId → Header) (tables : AnyId → ℕ → ℕ) (path : List AnyId) → IsBegun o sd id version → length path ≤ n
        → steps_left (cost_of names) heads tables (path_left heads tables path) o ≤ 64 + 4 * length names + 32 * n + sum_by (tables_left heads tables) path }
    ensures known { (o : AnyOpening) (host : ℕ) (x : Volumes) (d : Content) (heads : AnyId → Header) (tables : AnyId → ℕ → ℕ) → Knows o host x d → HaveTables (image o) x heads tables
        → OpensTables heads tables o }
    ensures positions { (o : AnyOpening) (heads : AnyId → Header) → IsFit o → HasHeader heads o → OpensTables heads (λ v. positions_from (heads v)) o }
{}
