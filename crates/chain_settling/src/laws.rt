// Laws of images that are settled: contracts of functions that do nothing.
ghost use Rattle.std.specs.Prelude.{◌≡◌, ◌≢◌, ◌+◌, ◌*◌, ◌^◌, ◌≤◌, ℕ, List, length, sum_by, Contains, Option, Some, None};
ghost use Rattle.sd_names.specs.declared.id.Id.{Id};
ghost use Rattle.sd_names.specs.declared.place.Dir.{Dir};
ghost use Rattle.sd_names.specs.declared.place.Name.{Name};
ghost use Rattle.sd_names.specs.declared.place.Place.{Place};
ghost use Rattle.shared_disk.specs.Content.{Content};
ghost use Rattle.shared_disk.specs.Crash.{DownLeaves, IsOutcome};
ghost use Rattle.shared_disk.specs.NameCalls.{ShowsName};
ghost use Rattle.shared_disk.specs.SectorCalls.{IsGrown};
ghost use Rattle.chain_gathering.specs.Knowing.{AreSettled, volumes_in};
ghost use Rattle.chain_gathering.specs.Names.{cost_by, cost_of};
ghost use Rattle.chain_gathering.specs.Steps.{IsShown};
ghost use Rattle.chain_model.specs.Flat.{IsFlat};
ghost use Rattle.chain_model.specs.Folder.{Volumes};
ghost use Rattle.chain_model.specs.Reading.{IsReading};
ghost use Rattle.chain_model.specs.Records.{Image, Records, records_of};
ghost use Rattle.chain_records.specs.Paths.{HasChain};
ghost use Rattle.chain_records.specs.Settling.{ArePartlyRewritten};
ghost use Rattle.shared_disk.specs.WellFormed.{IsWellFormed};
ghost use Rattle.layer_creating.specs.declared.backing.Backing.{Backing};
ghost use Rattle.qcow_layer.specs.Opening.{place_kept};
ghost use Rattle.qcow_layer.specs.declared.layer.Layer.{Layer};
ghost use Rattle.settling_steps.specs.Lengthening.{width_of};
ghost use Rattle.settling_steps.specs.Leftovers.{IsPaid, IsRise, KnowsNames};
ghost use Rattle.qcow_format.specs.declared.header.Header.{Header};
ghost use Rattle.settling_steps.specs.Names.{price};
ghost use Rattle.volume_chain.specs.Chain.{IsShaped, open_in, path_in, records_kept};
ghost use Rattle.volume_chain.specs.Knowing.{KnowsChain};
ghost use Rattle.volume_chain.specs.Stages.{IsOpen};
ghost use Rattle.volume_chain.specs.Left.{path_left, tables_left};
ghost use Rattle.volume_chain.specs.Left as opening;
ghost use Rattle.volume_chain.specs.Opening.{IsBegun};
ghost use Rattle.volume_chain.specs.declared.chain.Chain.{Chain};
ghost use Rattle.volume_chain.specs.declared.opening.ChainOpening.{ChainOpening};
ghost use Rattle.chain_settling.specs.Alike.{HasTypeOf, ReadsAlike};
ghost use Rattle.chain_settling.specs.Was.{IsOffLayers, file_in, folder_in, image_kept};
ghost use Rattle.chain_settling.specs.Work.{IsBackingFor, IsLayerAt, IsRight};
ghost use Rattle.chain_settling.specs.declared.settling.Settling.{Settling};
ghost use Rattle.chain_settling.specs.Fit.{AreValid};
ghost use Rattle.chain_settling.specs.Knowing.{HaveRoom, IsSettledImage};
ghost use Rattle.chain_settling.specs.Left.{IsCost};
ghost use Rattle.chain_settling.specs.Settling.{BeginsTidying, Knows, Meets, SettlingTurn, IsEarly, chain_of, folder_of, steps_left};

/// A law: where an image reads alike, it does so on each outcome: each text says its old record or a rewritten one, the
/// reading volume is the same, and each LEGAL volume reads as it did.
pub fn settling_survives_crashes()
    ensures records { (i : Image) (dir : Dir) (r : Records) (x : Volumes) (d o : Content) → ReadsAlike i dir r x d → IsOutcome d o
        → ArePartlyRewritten r (records_of i (volumes_in dir o)) }
    ensures types { (i : Image) (dir : Dir) (r : Records) (x : Volumes) (d o : Content) (v : Id) → ReadsAlike i dir r x d → IsOutcome d o
        → HasTypeOf r v (records_of i (volumes_in dir o) v) }
    ensures reading { (i : Image) (dir : Dir) (r : Records) (x : Volumes) (d o : Content) (v : Id) (vs : List Id) → ReadsAlike i dir r x d → IsOutcome d o
        → IsReading r v vs → (ws : List Id) × IsReading (records_of i (volumes_in dir o)) v ws }
    ensures flats { (i : Image) (dir : Dir) (r : Records) (x : Volumes) (d o : Content) (flats : Id → ℕ → List ℕ) → ReadsAlike i dir r x d → IsOutcome d o
        → ((v : Id) → HasChain r v) → IsFlat r flats x → IsFlat (records_of i (volumes_in dir o)) flats (volumes_in dir o) }
{}

/// A law: an image that is open is known to its settling, as it begins, where the identifiers of temporary names have sixteen
/// bytes, and 64 bits hold the next whole length of each layer's file. What it reads as is what its texts and files say then.
pub fn open_chains_are_known()
    ensures { (c : Chain) (s : Settling) (host : ℕ) (d : Content) → IsOpen c host d → IsWellFormed d → KnowsNames (folder_in c) d → HaveRoom c d → BeginsTidying c s
        → Knows s host (records_of (image_kept c) (volumes_in (folder_in c) d)) (volumes_in (folder_in c) d) d }
{}

/// A law: what a settling knows stays known whatever else changes on the disk while the image's folder is there and each of
/// its files stays, where another host goes down, and where a volume's file gets longer that is no layer of the path,
/// or a layer's before its turn to be grown has come.
pub fn known_settlings_stay_known()
    ensures untouched { (s : Settling) (host : ℕ) (r : Records) (x : Volumes) (d e : Content) → IsWellFormed e → e.dir (folder_of s) ≡ d.dir (folder_of s)
        → ((q : Place) → q.dir ≡ folder_of s → e.file q ≡ d.file q) → Knows s host r x d → Knows s host r x e }
    ensures down { (s : Settling) (host other : ℕ) (r : Records) (x : Volumes) (d e : Content) → host ≢ other → DownLeaves d other e → Knows s host r x d → Knows s host r x e }
    ensures grown { (s : Settling) (host size : ℕ) (r : Records) (x : Volumes) (v : Id) (d e : Content) → IsWellFormed d → IsWellFormed e → IsGrown d (file_in (folder_of s) v) size e → IsOffLayers (chain_of s) v
        → Knows s host r x d → Knows s host r x e }
    ensures early { (s : Settling) (host size b : ℕ) (r : Records) (x : Volumes) (l : Layer) (d e : Content) → IsWellFormed d → IsWellFormed e → IsGrown d (place_kept l) size e → IsLayerAt (chain_of s) b l
        → 512 * size + width_of l ≤ 2 ^ 64 → IsEarly s b → Knows s host r x d → Knows s host r x e }
{}

/// A law: how many steps a settling takes. `falls` of its steps makes one number fall, where the names that are listed are paid
/// for. They are where the folder shows them and each costs what it takes: two for a temporary name, and one for any other. The
/// number begins at what all names cost, nine for each volume of the path, twelve for each volume, and five.
pub fn settlings_are_short()
    ensures begun { (c : Chain) (s : Settling) (cost : Option Name → ℕ) → BeginsTidying c s → steps_left cost s ≡ cost None + 9 * length (open_in c) + 12 * length (records_kept c) + 5 }
    ensures paid { (s : Settling) (turn : SettlingTurn) (d : Content) (cost : Option Name → ℕ) → IsCost (folder_of s) d cost → Meets IsRise s turn → Meets (IsShown (folder_of s) d) s turn
        → Meets (IsPaid cost) s turn }
    ensures counted { (dir : Dir) (d : Content) (names : List Name) → ((n : Name) → ShowsName d dir n → Contains names n) → IsCost dir d (cost_by price names) }
{}

/// A law: how many steps an opening and the settling of the chain that it hands out take together. For N names, which the folder
/// shows, and n volumes, the numbers that their steps make fall begin below 64 + 4 N + 32 n and what the tables of the path's
/// layers cost: T tables of q sectors cost 2 T q. `openings_are_short` says when the first one falls, and `settlings_are_short`
/// when the second one does; an opening hands out a chain of such a shape on every disk.
pub fn openings_and_settlings_are_short()
    ensures { (o : ChainOpening) (c : Chain) (s : Settling) (sd id : Id) (version : ℕ) (names : List Name) (heads : Id → Header) (tables : Id → ℕ → ℕ) → IsBegun o sd id version → IsShaped c → BeginsTidying c s
        → opening.steps_left (cost_of names) heads tables (path_left heads tables (path_in c)) o + steps_left (cost_by price names) s
        ≤ 64 + 4 * length names + 32 * length (records_kept c) + sum_by (tables_left heads tables) (path_in c) }
{}

/// A law: the chain of a settled image is known as that of an opening, and nothing is unsynced in the files and texts of its
/// volumes, so that a reader or a writer of the chain can begin. `Settling::step` keeps each record valid. No text of a settled
/// image has to change, and no header of its path, so another settling leaves each as it is.
pub fn settled_chains_are_known()
    ensures known { (c : Chain) (host : ℕ) (r : Records) (x : Volumes) (d : Content) → IsSettledImage c host r x d → AreValid c → KnowsChain c host d }
    ensures settled { (c : Chain) (host : ℕ) (r : Records) (x : Volumes) (d : Content) → IsSettledImage c host r x d → AreSettled (folder_in c) d }
    ensures right { (c : Chain) (host : ℕ) (r : Records) (x : Volumes) (d : Content) (v : Id) → IsSettledImage c host r x d → IsRight (records_of (image_kept c) (volumes_in (folder_in c) d)) v }
    ensures heads { (c : Chain) (host : ℕ) (r : Records) (x : Volumes) (d : Content) (b : ℕ) (l : Layer) (back : Backing) → IsSettledImage c host r x d → IsLayerAt c b l → IsBackingFor (records_of (image_kept c) (volumes_in (folder_in c) d)) l (Some back) → ⊥ }
{}
