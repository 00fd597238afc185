// Laws of filled clusters: contracts of functions that do nothing.
ghost use Rattle.std.specs.Prelude.{◌≡◌, ◌≢◌, ◌⊎◌, ℕ, ◌+◌, ◌*◌, ◌/◌, ◌%◌, ◌^◌, ◌<◌, ◌≤◌, Bool, List, Some, slice_get};
ghost use Rattle.sd_names.specs.declared.id.Id.{Id};
ghost use Rattle.shared_disk.specs.Calls.{sectors_in, synced, wrote};
ghost use Rattle.shared_disk.specs.Content.{Content, File};
ghost use Rattle.shared_disk.specs.Crash.{DownLeaves, IsSettled, OnEach};
ghost use Rattle.qcow_format.specs.declared.entry.Entry.{Entry as AnyEntry};
ghost use Rattle.image_model.specs.File.{sector_in};
ghost use Rattle.chain_model.specs.Chain.{IsBelow};
ghost use Rattle.chain_model.specs.Flat.{flat};
ghost use Rattle.chain_model.specs.Folder.{Volumes, folder_of};
ghost use Rattle.chain_model.specs.Growth.{MayHaveGrown};
ghost use Rattle.chain_model.specs.Own.{own};
ghost use Rattle.volume_chain.specs.Chain.{IsShaped, dir_in, path_in, place_in, target_of};
ghost use Rattle.volume_chain.specs.Knowing.{HaveLengths};
ghost use Rattle.volume_chain.specs.declared.chain.Chain.{Chain};
ghost use Rattle.chain_reading.specs.Knowing.{KnowsImage, records_of};
ghost use Rattle.chain_reading.specs.Reading.{IsAskedFrom};
ghost use Rattle.cluster_filling.specs.Cluster.{IsClusterOf, IsIn, IsWanted, source_on};
ghost use Rattle.cluster_filling.specs.Filled.{HasFilled, HoldsNoData, SeesFilled};
ghost use Rattle.cluster_filling.specs.Filling.{Knows, KnowsCluster, KnowsFile, KnowsSource, cluster_of, done_of, file_at};
ghost use Rattle.cluster_filling.specs.Left.{cluster_steps, many, reads_steps};
ghost use Rattle.cluster_filling.specs.declared.cluster.Cluster.{Cluster as AnyCluster};
ghost use Rattle.cluster_filling.specs.declared.cluster.NewCluster.{NewCluster};
ghost use Rattle.cluster_filling.specs.declared.filling.Filling.{Filling as AnyFilling};

/// A law: what is known of a cluster that is filled, wholly or in part, stays known whatever else changes on the disk while the
/// files of its volume and of those below it stay; where another host goes down; and where volume files get longer. What a
/// filling knows stays known with it.
pub fn knowledge_survives()
    ensures filling { (p : AnyFilling) (c : Chain) (host : ℕ) (x : Volumes) (part room : List ℕ) (d e : Content) → Knows p c host x part room d → KnowsCluster (cluster_of p) c host x part (done_of p) e → Knows p c host x part room e }
    ensures untouched { (k : AnyCluster) (c : Chain) (host : ℕ) (x : Volumes) (part : List ℕ) (done : ℕ) (d e : Content) → e.file (file_at k c) ≡ d.file (file_at k c)
        → ((u w : Id) → k.below ≡ Some u → IsAskedFrom c u w → e.file (place_in (target_of c) w) ≡ d.file (place_in (target_of c) w)) → KnowsCluster k c host x part done d → KnowsCluster k c host x part done e }
    ensures down { (k : AnyCluster) (c : Chain) (host other : ℕ) (x : Volumes) (part : List ℕ) (done : ℕ) (d e : Content) → host ≢ other → DownLeaves d other e → KnowsCluster k c host x part done d
        → KnowsCluster k c host x part done e }
    ensures grown { (k : AnyCluster) (c : Chain) (host : ℕ) (x : Volumes) (part : List ℕ) (done : ℕ) (d e : Content) → MayHaveGrown (folder_of (dir_in (target_of c)) d) (folder_of (dir_in (target_of c)) e)
        → HaveLengths (target_of c) e → done ≤ k.count → KnowsCluster k c host x part done d → KnowsCluster k c host x part done e }
{}

/// A law: the volume that is to be read for a cluster is one of the path below the volume that is written, so that its files
/// aren't written.
pub fn sources_stand_below()
    ensures { (k : AnyCluster) (c : Chain) (host : ℕ) (x : Volumes) (i : ℕ) (entry : AnyEntry) (u : Id) (d : Content) → slice_get (path_in c) i ≡ Some k.volume → source_on (path_in c) i entry ≡ Some u
        → KnowsImage c u host x d → KnowsSource k c host x u d }
{}

/// A law: what the host sees of a cluster that was filled it sees still once it wrote elsewhere in the file, and the medium has
/// it once it synced the file, on each outcome of it: each sector of the virtual disk at the cluster's place.
pub fn filled_clusters_reach_the_medium()
    ensures seen { (k : AnyCluster) (c : Chain) (host : ℕ) (x : Volumes) (part : List ℕ) (d : Content) (f : File) → KnowsFile k c host x part k.count d → d.file (file_at k c) ≡ Some f → SeesFilled k c x part host f }
    ensures beside { (k : AnyCluster) (c : Chain) (x : Volumes) (part : List ℕ) (did : ℕ → Bool) (host at : ℕ) (bytes : List ℕ) (f : File) → (at + sectors_in bytes ≤ k.target) ⊎ (k.target + k.count ≤ at)
        → SeesFilled k c x part host f → SeesFilled k c x part host (wrote did host at bytes f) }
    ensures synced { (k : AnyCluster) (c : Chain) (x : Volumes) (part : List ℕ) (host : ℕ) (f : File) → SeesFilled k c x part host f → HasFilled k c x part (synced host f) }
    ensures each { (k : AnyCluster) (c : Chain) (x : Volumes) (part : List ℕ) (f : File) → IsSettled f → HasFilled k c x part f → OnEach f (HasFilled k c x part) }
    ensures there { (new : NewCluster) (k : AnyCluster) (c : Chain) (x : Volumes) (part : List ℕ) (f : File) (n : ℕ) → IsClusterOf new k → new.place < 2 ^ 63 → new.number * (new.width / 512) ≤ 2 ^ 54
        → new.width % 512 ≡ 0 → 512 * n / new.width ≡ new.number → HasFilled k c x part f → IsWanted k c x part n (sector_in f.size f.stable ((new.place + 512 * n % new.width) / 512)) }
{}

/// A law: a sector of a filled cluster outside the part and below the capacity is what the volume itself read there, where the
/// cluster had no data.
pub fn filled_clusters_read_alike()
    ensures { (k : AnyCluster) (c : Chain) (x : Volumes) (i : ℕ) (entry : AnyEntry) (vs : List Id) (part : List ℕ) (n : ℕ) (s : List ℕ) → IsShaped c → slice_get (path_in c) i ≡ Some k.volume
        → k.below ≡ source_on (path_in c) i entry → HoldsNoData entry (own (records_of c) x k.volume n) → IsBelow (records_of c) k.volume vs → n < k.capacity → (IsIn k (sectors_in part) n → ⊥)
        → IsWanted k c x part n s → s ≡ flat (records_of c) x k.volume vs n }
{}

/// A law: a whole cluster takes four steps for each of its pieces, and those that the volumes below take for them.
pub fn fillings_are_short()
    ensures { (k : AnyCluster) (c : Chain) → cluster_steps k c ≡ 4 * many k.count + reads_steps k c (many k.count) 0 }
{}
