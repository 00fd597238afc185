// Laws of entries that are made together.
ghost use Rattle.std.specs.Prelude.{◌≡◌, ℕ, ◌*◌, ◌/◌, ◌%◌, ◌^◌, ◌<◌, List, Option, None, Ok, Some};
ghost use Rattle.qcow_format.specs.declared.header.Header.{Header};
ghost use Rattle.image_model.specs.File.{file_of};
ghost use Rattle.image_model.specs.Layer.{l1_at, l1_entry};
ghost use Rattle.image_model.specs.Soundness.{IsSound, layer_header};
ghost use Rattle.layer_laws.specs.Laws.{AreSectors, OnlyWord, SameOutside, layer};
ghost use Rattle.link_laws.specs.Links.{AreLinks, IsFilled, IsNewTable, IsLaid, Linked, l1_word, no_table, one_table, row_of, sector_at};

/// A law: several entries of one sector of an L2 table may become data at once, in a file of whole clusters.
pub fn enter_many()
    ensures { (n capacity group table : ℕ) (to : ℕ → Option ℕ) (s s' : ℕ → List ℕ) (h : Header) → AreSectors n s → layer_header (file_of n s) capacity ≡ Ok h
        → IsSound (file_of n s) capacity → 512 * n % 2 ^ h.cluster_bits ≡ 0
        → row_of (layer h (file_of n s)) group < h.l1_size → l1_entry (layer h (file_of n s)) (row_of (layer h (file_of n s)) group) ≡ Ok (Some table)
        → AreLinks (layer h (file_of n s)) capacity group to
        → IsLaid to (64 * group) (sector_at (layer h (file_of n s)) table group) s s'
        → Linked h capacity to no_table (file_of n s) (file_of n s') }
{}

/// A law: in a cluster that has a count and is named by nothing a table is made, with several entries of one sector, and
/// then an L1 entry that named no table names it. `t` are the sectors once the table is made, `s'` those once it is named.
pub fn link_filled()
    ensures { (n capacity group table : ℕ) (to : ℕ → Option ℕ) (s t s' : ℕ → List ℕ) (h : Header) → AreSectors n s → AreSectors n t → AreSectors n s'
        → layer_header (file_of n s) capacity ≡ Ok h → IsSound (file_of n s) capacity → 512 * n % 2 ^ h.cluster_bits ≡ 0
        → row_of (layer h (file_of n s)) group < h.l1_size → l1_entry (layer h (file_of n s)) (row_of (layer h (file_of n s)) group) ≡ Ok None
        → AreLinks (layer h (file_of n s)) capacity group to → IsNewTable (layer h (file_of n s)) capacity to table
        → SameOutside table (2 ^ h.cluster_bits) s t
        → IsFilled to (64 * group) (sector_at (layer h (file_of n s)) table group) table (2 ^ h.cluster_bits) t
        → OnlyWord (l1_at (layer h (file_of n s)) (row_of (layer h (file_of n s)) group) / 8) t s'
        → (file_of n s').word (l1_at (layer h (file_of n s)) (row_of (layer h (file_of n s)) group) / 8) ≡ l1_word table
        → Linked h capacity to (one_table (row_of (layer h (file_of n s)) group) table) (file_of n s) (file_of n s') }
{}
