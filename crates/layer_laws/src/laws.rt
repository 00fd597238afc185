// Laws of sound layers.
ghost use Rattle.std.specs.Prelude.{◌≡◌, ◌≢◌, ℕ, ◌+◌, ◌*◌, ◌/◌, ◌%◌, ◌^◌, ◌<◌, ◌≤◌, List, None, Ok, Some};
ghost use Rattle.qcow_format.specs.declared.header.Header.{Header};
ghost use Rattle.qcow_format.specs.declared.entry.Entry.TheVariants.{Data, Zero};
ghost use Rattle.qcow_format.specs.Name.{backing_id};
ghost use Rattle.image_model.specs.File.{File, file_of};
ghost use Rattle.image_model.specs.Layer.{block_at, block_place, block_word, block_span, count_of, entries, entry_at, l1_at, l1_clusters, l1_entry, l2_at, l2_entry, own_byte};
ghost use Rattle.image_model.specs.Soundness.{IsSound, layer_header, names};
ghost use Rattle.layer_laws.specs.Laws.{AreSectors, AreZeros, BlockRecounted, Entered, IsNamedOnlyAt, IsUnnamed, OnlyHalf, OnlyWord, Overwritten, Placed, Rebased, Recounted, SameContent, SameOutside, block_position, count_index, entry_position, l1_position, layer, plain, with_l1};

/// A law: a cluster without a count is named by nothing.
pub fn uncounted_is_unnamed()
    ensures { (file : File) (capacity p : ℕ) (h : Header) → layer_header file capacity ≡ Ok h → IsSound file capacity → count_of (layer h file) (p / 2 ^ h.cluster_bits) ≡ 0 → IsUnnamed (layer h file) capacity p }
{}

/// A law: the sectors of a cluster that no position names may change, and nothing does.
pub fn frame()
    ensures { (n capacity p : ℕ) (s s' : ℕ → List ℕ) (h : Header) → AreSectors n s → layer_header (file_of n s) capacity ≡ Ok h
        → IsSound (file_of n s) capacity → p % 2 ^ h.cluster_bits ≡ 0 → IsUnnamed (layer h (file_of n s)) capacity p
        → SameOutside p (2 ^ h.cluster_bits) s s' → SameContent h capacity (file_of n s) (file_of n s') }
{}

/// A law: the sectors of a cluster of data may change, and only its own bytes do.
pub fn overwrite()
    ensures { (n capacity k p : ℕ) (s s' : ℕ → List ℕ) (h : Header) → AreSectors n s → layer_header (file_of n s) capacity ≡ Ok h
        → IsSound (file_of n s) capacity → entry_at (layer h (file_of n s)) k ≡ Data p
        → SameOutside p (2 ^ h.cluster_bits) s s' → Overwritten h capacity k p (file_of n s) (file_of n s') }
{}

/// A law: a count in a block that is there may become another, which isn't 0 where a position names the cluster.
pub fn recount()
    ensures { (n capacity x : ℕ) (s s' : ℕ → List ℕ) (h : Header) → AreSectors n s → layer_header (file_of n s) capacity ≡ Ok h
        → IsSound (file_of n s) capacity → block_place (layer h (file_of n s)) (x / block_span (layer h (file_of n s))) ≢ 0
        → OnlyHalf (count_index (layer h (file_of n s)) x) s s'
        → ((m place : ℕ) → names (layer h (file_of n s)) capacity m ≡ Some place → place / 2 ^ h.cluster_bits ≡ x → 0 < (file_of n s').half (count_index (layer h (file_of n s)) x))
        → Recounted h capacity x ((file_of n s').half (count_index (layer h (file_of n s)) x)) (file_of n s) (file_of n s') }
{}

/// A law: the sectors of a cluster that is kept for an entry which reads as zeros may change, and nothing does.
pub fn refill()
    ensures { (n capacity k p : ℕ) (s s' : ℕ → List ℕ) (h : Header) → AreSectors n s → layer_header (file_of n s) capacity ≡ Ok h
        → IsSound (file_of n s) capacity → entry_at (layer h (file_of n s)) k ≡ Zero p → p ≢ 0
        → SameOutside p (2 ^ h.cluster_bits) s s' → SameContent h capacity (file_of n s) (file_of n s') }
{}

/// A law: the counts of a block that is there may become others, which aren't 0 where a position names the cluster.
pub fn recount_block()
    ensures { (n capacity k : ℕ) (s s' : ℕ → List ℕ) (h : Header) → AreSectors n s → layer_header (file_of n s) capacity ≡ Ok h
        → IsSound (file_of n s) capacity → block_place (layer h (file_of n s)) k ≢ 0
        → SameOutside (block_place (layer h (file_of n s)) k) (2 ^ h.cluster_bits) s s'
        → ((m place : ℕ) → names (layer h (file_of n s)) capacity m ≡ Some place → place / 2 ^ h.cluster_bits / block_span (layer h (file_of n s)) ≡ k → 0 < (file_of n s').half (count_index (layer h (file_of n s)) (place / 2 ^ h.cluster_bits)))
        → BlockRecounted h capacity k (file_of n s) (file_of n s') }
{}

/// A law: the backing file is the same where the sectors of another cluster than the header's change.
pub fn keep_parent()
    ensures { (n capacity p : ℕ) (s s' : ℕ → List ℕ) (h : Header) → AreSectors n s → layer_header (file_of n s) capacity ≡ Ok h
        → p % 2 ^ h.cluster_bits ≡ 0 → p ≢ 0 → SameOutside p (2 ^ h.cluster_bits) s s'
        → backing_id h (file_of n s').head ≡ backing_id h (file_of n s).head }
{}

/// A law: the entry of a cluster of the virtual disk may become data at a place that begins a cluster inside the file,
/// has a count, and is named by nothing else.
pub fn enter()
    ensures { (n capacity k table place : ℕ) (s s' : ℕ → List ℕ) (h : Header) → AreSectors n s → layer_header (file_of n s) capacity ≡ Ok h
        → IsSound (file_of n s) capacity
        → k / entries (layer h (file_of n s)) < h.l1_size → l1_entry (layer h (file_of n s)) (k / entries (layer h (file_of n s))) ≡ Ok (Some table)
        → k * 2 ^ h.cluster_bits < capacity
        → OnlyWord (l2_at table (k % entries (layer h (file_of n s))) / 8) s s'
        → l2_entry (layer h (file_of n s')) table (k % entries (layer h (file_of n s))) ≡ Ok (Data place)
        → place % 2 ^ h.cluster_bits ≡ 0 → place < 512 * n → 0 < count_of (layer h (file_of n s)) (place / 2 ^ h.cluster_bits)
        → IsNamedOnlyAt (layer h (file_of n s)) capacity (entry_position (layer h (file_of n s)) k) place
        → Entered h capacity k place (file_of n s) (file_of n s') }
{}

/// A law: a cluster is allocated by three changes, of its count, of its bytes, and of the entry, each of which leaves a
/// sound layer.
pub fn allocate()
    ensures { (n capacity k table place : ℕ) (s a b d : ℕ → List ℕ) (h : Header) → AreSectors n s → AreSectors n a → AreSectors n b
        → layer_header (file_of n s) capacity ≡ Ok h → IsSound (file_of n s) capacity
        → k / entries (layer h (file_of n s)) < h.l1_size → l1_entry (layer h (file_of n s)) (k / entries (layer h (file_of n s))) ≡ Ok (Some table)
        → k * 2 ^ h.cluster_bits < capacity → place % 2 ^ h.cluster_bits ≡ 0 → place < 512 * n
        → count_of (layer h (file_of n s)) (place / 2 ^ h.cluster_bits) ≡ 0 → block_place (layer h (file_of n s)) (place / 2 ^ h.cluster_bits / block_span (layer h (file_of n s))) ≢ 0
        → OnlyHalf (count_index (layer h (file_of n s)) (place / 2 ^ h.cluster_bits)) s a → 0 < (file_of n a).half (count_index (layer h (file_of n s)) (place / 2 ^ h.cluster_bits))
        → SameOutside place (2 ^ h.cluster_bits) a b
        → OnlyWord (l2_at table (k % entries (layer h (file_of n s))) / 8) b d
        → l2_entry (layer h (file_of n d)) table (k % entries (layer h (file_of n s))) ≡ Ok (Data place)
        → IsSound (file_of n a) capacity × IsSound (file_of n b) capacity × IsSound (file_of n d) capacity
        × (entry_at (layer h (file_of n d)) k ≡ Data place)
        × ((i : ℕ) → i / 2 ^ h.cluster_bits ≢ k → own_byte (layer h (file_of n d)) i ≡ own_byte (layer h (file_of n s)) i) }
{}

/// A law: an L1 entry that names no table may name one whose entries are all absent, which begins a cluster inside the
/// file, has a count, and is named by nothing.
pub fn link()
    ensures { (n capacity i table : ℕ) (s s' : ℕ → List ℕ) (h : Header) → AreSectors n s → layer_header (file_of n s) capacity ≡ Ok h
        → IsSound (file_of n s) capacity → i < h.l1_size → l1_entry (layer h (file_of n s)) i ≡ Ok None
        → OnlyWord (l1_at (layer h (file_of n s)) i / 8) s s' → l1_entry (layer h (file_of n s')) i ≡ Ok (Some table)
        → table % 2 ^ h.cluster_bits ≡ 0 → table < 512 * n → 0 < count_of (layer h (file_of n s)) (table / 2 ^ h.cluster_bits)
        → ((j : ℕ) → j < entries (layer h (file_of n s)) → (file_of n s).word (l2_at table j / 8) ≡ 0)
        → IsUnnamed (layer h (file_of n s)) capacity table
        → Placed h capacity (l1_position (layer h (file_of n s)) i) table (file_of n s) (file_of n s')
        × ((m : ℕ) → m ≢ i → l1_entry (layer h (file_of n s')) m ≡ l1_entry (layer h (file_of n s)) m)
        × ((b : ℕ) → block_place (layer h (file_of n s')) b ≡ block_place (layer h (file_of n s)) b)
        × ((x : ℕ) → count_of (layer h (file_of n s')) x ≡ count_of (layer h (file_of n s)) x) }
{}

/// A law: an entry of the refcount table that names no block may name one that counts itself, which begins a cluster
/// inside the file.
pub fn cover()
    ensures { (n capacity k block : ℕ) (s s' : ℕ → List ℕ) (h : Header) → AreSectors n s → layer_header (file_of n s) capacity ≡ Ok h
        → IsSound (file_of n s) capacity → k < h.refcount_table_clusters * entries (layer h (file_of n s)) → block_place (layer h (file_of n s)) k ≡ 0
        → OnlyWord (block_at (layer h (file_of n s)) k / 8) s s' → block_word (layer h (file_of n s')) k ≡ block → block ≢ 0
        → block % 2 ^ h.cluster_bits ≡ 0 → block < 512 * n → block / 2 ^ h.cluster_bits / block_span (layer h (file_of n s)) ≡ k
        → 0 < (file_of n s).half (block / 2 + block / 2 ^ h.cluster_bits % block_span (layer h (file_of n s)))
        → Placed h capacity (block_position (layer h (file_of n s)) k) block (file_of n s) (file_of n s')
        × ((x : ℕ) → x / block_span (layer h (file_of n s)) ≢ k → count_of (layer h (file_of n s')) x ≡ count_of (layer h (file_of n s)) x)
        × ((x : ℕ) → x / block_span (layer h (file_of n s)) ≡ k → count_of (layer h (file_of n s')) x ≡ (file_of n s).half (block / 2 + x % block_span (layer h (file_of n s)))) }
{}

/// A law: a file may become longer, with zeros behind what it held.
pub fn grown()
    ensures { (n n' capacity : ℕ) (s s' : ℕ → List ℕ) (h : Header) → layer_header (file_of n s) capacity ≡ Ok h
        → IsSound (file_of n s) capacity → n ≤ n' → ((k : ℕ) → k < n → s' k ≡ s k) → AreZeros n n' s'
        → SameContent h capacity (file_of n s) (file_of n' s') }
{}

/// A law: a layer is as sound for a volume of a larger capacity, as far as the header's size reaches.
pub fn taller()
    ensures { (file : File) (capacity larger : ℕ) (h : Header) → layer_header file capacity ≡ Ok h → IsSound file capacity → capacity ≤ larger → larger ≤ h.size
        → (layer_header file larger ≡ Ok h) × IsSound file larger × ((m : ℕ) → names (layer h file) larger m ≡ names (layer h file) capacity m) }
{}

/// A law: the header's cluster may change, where the header that is read from it differs only in the backing file and in the
/// features that a writer clears.
pub fn rebased()
    ensures { (n capacity : ℕ) (s s' : ℕ → List ℕ) (h h' : Header) → layer_header (file_of n s) capacity ≡ Ok h → layer_header (file_of n s') capacity ≡ Ok h'
        → plain h' ≡ plain h → SameOutside 0 (2 ^ h.cluster_bits) s s' → IsSound (file_of n s) capacity → Rebased h h' capacity (file_of n s) (file_of n s') }
{}

/// A law: the header may get another size and a longer L1 table of as many clusters, whose new entries are absent.
pub fn resized()
    ensures { (n capacity size l : ℕ) (s s' : ℕ → List ℕ) (h : Header) → layer_header (file_of n s) capacity ≡ Ok h → layer_header (file_of n s') capacity ≡ Ok (with_l1 h size l)
        → h.l1_size ≤ l → l1_clusters (layer (with_l1 h size l) (file_of n s)) ≡ l1_clusters (layer h (file_of n s))
        → ((i : ℕ) → h.l1_size ≤ i → i < l → l1_entry (layer h (file_of n s')) i ≡ Ok None)
        → SameOutside 0 (2 ^ h.cluster_bits) s s' → IsSound (file_of n s) capacity → Rebased h (with_l1 h size l) capacity (file_of n s) (file_of n s') }
{}
