// Laws of a cluster's commit, piece by piece: contracts of functions that do nothing.
ghost use Rattle.std.specs.Prelude.{◌≡◌, ◌≢◌, ◌+◌, ◌≤◌, ℕ, List, length, Contains, true};
ghost use Rattle.sd_names.specs.declared.id.Id.{Id};
ghost use Rattle.shared_disk.specs.Calls.{sectors_in};
ghost use Rattle.shared_disk.specs.Content.{Content};
ghost use Rattle.volume_meta.specs.declared.record.VolumeRecord.{VolumeRecord};
ghost use Rattle.chain_model.specs.Chain.{IsBelow};
ghost use Rattle.chain_model.specs.Flat.{IsFlat, IsSectorOf, flat};
ghost use Rattle.chain_model.specs.Folder.{Folder, OnEachFolder, folder_of, volumes_of};
ghost use Rattle.chain_model.specs.Reading.{IsReading};
ghost use Rattle.chain_model.specs.Records.{is_legal};
ghost use Rattle.chain_laws.specs.Laid.{Laying, Reads};
ghost use Rattle.chain_laws.specs.Written.{ComesWritten, HoldsPart};
ghost use Rattle.chain_gathering.specs.Knowing.{AreSettled, volumes_in};
ghost use Rattle.chain_reading.specs.Knowing.{place_on};
ghost use Rattle.commit_laws.specs.Commit.{IsHeldBy};
ghost use Rattle.commit_reading.specs.Knowing.{HasPiece, HoldsFrom, KnowsTop};
ghost use Rattle.commit_reading.specs.Pieces.{IsInside, end_in, first_in};
ghost use Rattle.commit_reading.specs.declared.pieces.Pieces.{Pieces};
ghost use Rattle.volume_chain.specs.Chain.{dir_in, open_in, path_in, target_of};
ghost use Rattle.volume_chain.specs.Knowing.{KnowsChain};
ghost use Rattle.volume_chain.specs.Layers.{IsLayerAt};
ghost use Rattle.volume_chain.specs.declared.chain.Chain.{Chain};
ghost use Rattle.volume_chain.specs.declared.subchain.Subchain.{Subchain};
ghost use Rattle.raw_writing.specs.Image.{IsOnMedium, IsPartOf};
ghost use Rattle.commit_steps.specs.Knowing.{AreLaid, IsAsHeld, IsCommitOf, IsSameFor, IsStart, KnowsCommit, piece_of};

/// A law: the commit of a cluster may begin where the chain knows the image and nothing is unsynced in it (`begin`), and then the
/// top can be read, before each piece (`read`).
pub fn commits_begin()
    ensures begin { (l : Laying) (c : Chain) (sub : Subchain) (cluster : ℕ) (x : VolumeRecord) (host : ℕ) (d : Content) → IsCommitOf l c sub cluster x → KnowsChain c host d → AreSettled (dir_in (target_of c)) d
        → Reads l l.reads (volumes_in (dir_in (target_of c)) d) → IsAsHeld l sub.top (volumes_in (dir_in (target_of c)) d)
        → KnowsCommit l c sub cluster x host (folder_of (dir_in (target_of c)) d) (first_in c sub cluster) d }
    ensures read { (l : Laying) (c : Chain) (sub : Subchain) (cluster : ℕ) (x : VolumeRecord) (host : ℕ) (start : Folder) (from : ℕ) (d : Content) → KnowsCommit l c sub cluster x host start from d
        → Contains (path_in c) sub.top → IsLayerAt (open_in c) (place_on sub.top (path_in c)) → KnowsTop c sub host (volumes_in (dir_in (target_of c)) d) d }
{}

/// A law: the next piece may be written to the base as it was read of the top. It is a part of the base (`part`), which reads as it
/// is said (`reads`), and on each outcome it is a piece of the whole (`laid`).
pub fn pieces_may_be_written()
    ensures part { (l : Laying) (c : Chain) (sub : Subchain) (cluster : ℕ) (x : VolumeRecord) (p : Pieces) (part : List ℕ) (d : Content) → IsCommitOf l c sub cluster x → IsInside c sub cluster p → length part ≡ 65536
        → IsPartOf (piece_of l (volumes_in (dir_in (target_of c)) d) p part) c x }
    ensures reads { (l : Laying) (c : Chain) (sub : Subchain) (cluster : ℕ) (x : VolumeRecord) (host : ℕ) (start : Folder) (from : ℕ) (p : Pieces) (part : List ℕ) (d : Content) → KnowsCommit l c sub cluster x host start from d
        → Reads (piece_of l (volumes_in (dir_in (target_of c)) d) p part) (piece_of l (volumes_in (dir_in (target_of c)) d) p part).reads (volumes_in (dir_in (target_of c)) d) }
    ensures laid { (l : Laying) (c : Chain) (sub : Subchain) (cluster : ℕ) (x : VolumeRecord) (host : ℕ) (start : Folder) (from : ℕ) (p : Pieces) (part : List ℕ) (d : Content) → KnowsCommit l c sub cluster x host start from d
        → IsInside c sub cluster p → length part ≡ 65536 → HasPiece c sub (volumes_in (dir_in (target_of c)) d) p part
        → AreLaid (piece_of l (volumes_in (dir_in (target_of c)) d) p part) l (folder_of (dir_in (target_of c)) d) }
{}

/// A law: each step of the write of a piece is one of the commit: each outcome comes from one of the begin (`comes`). Once the piece
/// is on the medium, the base holds so many sectors more (`next`), in the end the whole part (`whole`).
pub fn pieces_are_committed()
    ensures comes { (piece l : Laying) (start F G : Folder) → ComesWritten l start F → AreLaid piece l F → ComesWritten piece F G → ComesWritten l start G }
    ensures next { (piece l : Laying) (c next : Chain) (sub : Subchain) (cluster : ℕ) (x : VolumeRecord) (host : ℕ) (start : Folder) (d e : Content) → KnowsCommit l c sub cluster x host start piece.part.at d
        → AreLaid piece l (folder_of (dir_in (target_of c)) d) → IsSameFor sub c next → ComesWritten piece (folder_of (dir_in (target_of c)) d) (folder_of (dir_in (target_of c)) e) → IsOnMedium next piece host e
        → KnowsCommit l next sub cluster x host start (piece.part.at + sectors_in piece.part.bytes) e }
    ensures whole { (l : Laying) (c : Chain) (sub : Subchain) (cluster : ℕ) (x : VolumeRecord) (host : ℕ) (start : Folder) (from : ℕ) (d : Content) → KnowsCommit l c sub cluster x host start from d → end_in c sub cluster ≤ from
        → OnEachFolder (folder_of (dir_in (target_of c)) d) (λ O. HoldsPart l (volumes_of O)) }
{}

/// A law: where the top is found to hold each sector of the part, it held it at the begin, as the part has it (`held`). So on each
/// outcome after each step each LEGAL volume but the base reads as it did (`others`).
pub fn other_volumes_stay()
    ensures held { (l : Laying) (c : Chain) (sub : Subchain) (cluster : ℕ) (x : VolumeRecord) (host : ℕ) (start : Folder) (from : ℕ) (d : Content) → KnowsCommit l c sub cluster x host start from d
        → HoldsFrom c sub (volumes_in (dir_in (target_of c)) d) (first_in c sub cluster) (end_in c sub cluster) → OnEachFolder start (λ O. IsHeldBy l sub.top (volumes_of O)) }
    ensures others { (l : Laying) (c : Chain) (sub : Subchain) (cluster : ℕ) (x : VolumeRecord) (start F : Folder) (v : Id) (vs : List Id) (flats : Id → ℕ → List ℕ) → IsCommitOf l c sub cluster x → IsStart l sub.top start
        → OnEachFolder start (λ O. IsHeldBy l sub.top (volumes_of O)) → IsReading l.records v vs → OnEachFolder start (λ O. IsFlat l.records flats (volumes_of O)) → ComesWritten l start F
        → OnEachFolder F (λ O. (u : Id) (us : List Id) → u ≢ sub.base → is_legal l.records u ≡ true → IsBelow l.records u us → (k : ℕ) → IsSectorOf l.records u k → flat l.records (volumes_of O) u us k ≡ flats u k) }
{}
