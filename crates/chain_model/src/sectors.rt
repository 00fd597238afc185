// Laws of what an image's volumes hold and read as.
ghost use Rattle.std.specs.Prelude.{◌≡◌, ◌≢◌, ℕ, ◌/◌, ◌%◌, ◌<◌, ◌≤◌, List, ◌∷◌, ◌++◌, Contains, None, Some, Ok, option_map, slice_index, true};
ghost use Rattle.sd_names.specs.Id.{zero_id};
ghost use Rattle.sd_names.specs.declared.id.Id.{Id};
ghost use Rattle.sd_names.specs.declared.kinds.Format.TheVariants.{Cow, Raw};
ghost use Rattle.shared_disk.specs.Content.{File, zero_sector};
ghost use Rattle.qcow_format.specs.declared.header.Header.{Header};
ghost use Rattle.volume_meta.specs.declared.record.VolumeRecord.{VolumeRecord};
ghost use Rattle.image_model.specs.File.{file_of};
ghost use Rattle.image_model.specs.Layer.{own_byte};
ghost use Rattle.chain_model.specs.Folder.{Volumes};
ghost use Rattle.chain_model.specs.Records.{Image, Records, is_legal, records_of};
ghost use Rattle.chain_model.specs.Chain.{AllCount, IsBelow, counting, path_of};
ghost use Rattle.chain_model.specs.Own.{header_in, own, own_in, sectors_of};
ghost use Rattle.chain_model.specs.Flat.{flat};
ghost use Rattle.chain_model.specs.Headers.{IsBacked, NameNext, flat_by_headers};
ghost use Rattle.chain_model.specs.Covered.{IsCovered};
ghost use Rattle.chain_model.specs.Opening.{IsOpenable};

/// A law: the sectors that a volume holds have the bytes that its file holds: a layer's those of its tables, a raw volume's
/// those of the file. It holds none at or past its capacity.
pub fn own_sectors_have_own_bytes()
    ensures layer { (x : VolumeRecord) (f : File) (h : Header) (i : ℕ) → x.format ≡ Cow → header_in x f ≡ Ok h → i / 512 < sectors_of x
        → option_map (λ (s : List ℕ). slice_index s (i % 512)) (own_in x f (i / 512)) ≡ own_byte (record { header = h; file = file_of f.size f.stable }) i }
    ensures raw { (x : VolumeRecord) (f : File) (i : ℕ) → x.format ≡ Raw → i / 512 < sectors_of x
        → option_map (λ (s : List ℕ). slice_index s (i % 512)) (own_in x f (i / 512)) ≡ Some ((file_of f.size f.stable).byte i) }
    ensures none { (x : VolumeRecord) (f : File) (k : ℕ) → sectors_of x ≤ k → own_in x f k ≡ None }
{}

/// A law: a sector reads as the first volume of the path holds it that holds it, and as zeros where none does.
pub fn first_holder_is_read()
    ensures held { (r : Records) (x : Volumes) (v : Id) (vs ps : List Id) (w : Id) (ws : List Id) (k : ℕ) (s : List ℕ) → path_of r v vs ≡ ps ++ w ∷ ws
        → ((u : Id) → Contains ps u → own r x u k ≡ None) → own r x w k ≡ Some s → flat r x v vs k ≡ s }
    ensures zeros { (r : Records) (x : Volumes) (v : Id) (vs : List Id) (k : ℕ) → ((u : Id) → Contains (path_of r v vs) u → own r x u k ≡ None) → flat r x v vs k ≡ zero_sector }
{}

/// A law: a sector reads alike wherever each volume itself holds it alike. Where one volume alone holds it otherwise than
/// before, and the sector was covered, each other LEGAL volume still reads it alike.
pub fn sectors_read_alike()
    ensures all { (r : Records) (x y : Volumes) (v : Id) (vs : List Id) (k : ℕ) → ((w : Id) → own r y w k ≡ own r x w k) → flat r y v vs k ≡ flat r x v vs k }
    ensures covered { (r : Records) (x y : Volumes) (b u : Id) (us : List Id) (k : ℕ) → IsCovered r b k x → ((w : Id) → w ≢ b → own r y w k ≡ own r x w k)
        → is_legal r u ≡ true → u ≢ b → IsBelow r u us → flat r y u us k ≡ flat r x u us k }
{}

/// A law: where each header of a path names the volume that comes next on it, the path that the headers give is the path,
/// and is there where the files are, and the sectors that it reads as are those of the path.
pub fn headers_tell_the_path()
    ensures path { (r : Records) (x : Volumes) (v : Id) (vs ws : List Id) → NameNext r x (path_of r v vs) → IsBacked r x v ws → ws ≡ counting r vs }
    ensures there { (r : Records) (x : Volumes) (v : Id) (vs : List Id) → NameNext r x (path_of r v vs)
        → ((w : Id) → Contains (counting r vs) w → (f : File) × (x.file w ≡ Some f)) → IsBacked r x v (counting r vs) }
    ensures sectors { (r : Records) (x : Volumes) (v : Id) (vs ws : List Id) (k : ℕ) → NameNext r x (path_of r v vs) → IsBacked r x v ws → flat_by_headers r x v ws k ≡ flat r x v vs k }
{}

/// A law: where an image can be opened, no parent below the reading volume is passed over, as an opening leaves it, and no
/// file has the name of zeros, the path that the headers give is the chain, and the sectors that it reads as are the volume's.
pub fn settled_headers_tell_the_chain()
    ensures path { (i : Image) (x : Volumes) (v : Id) (vs ws : List Id) → IsOpenable i x v vs → AllCount (records_of i x) vs → x.file zero_id ≡ None
        → IsBacked (records_of i x) x v ws → ws ≡ vs }
    ensures sectors { (i : Image) (x : Volumes) (v : Id) (vs ws : List Id) (k : ℕ) → IsOpenable i x v vs → AllCount (records_of i x) vs → x.file zero_id ≡ None
        → IsBacked (records_of i x) x v ws → flat_by_headers (records_of i x) x v ws k ≡ flat (records_of i x) x v vs k }
{}
