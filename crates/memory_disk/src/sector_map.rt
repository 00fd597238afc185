// Sectors by owner, file and number, in room that is taken at once.
ghost use Rattle.std.specs.Prelude.{◌≡◌, ◌≢◌, ◌+◌, ◌-◌, ◌<◌, ◌≤◌, ◌==◌, ℕ, Some, None, IfOk, IfSome, OnOk, IsSome, IsTrue, ◌↔◌, get_or, is_some, unwrap_or, length, vec_len, vec_capacity, if◌then◌else◌};
ghost use Rattle.std.specs.HashMap.{get, hash_map_len, spare};
ghost use Rattle.std.proofs.Props.{props};
ghost use Rattle.memory_disk.specs.Cells.{IsIndexed, cell_at, key_eq};
ghost use Rattle.shared_disk.specs.Content.{zero_sector};

use crate::cell::{Cell, Key};
use std::alloc::{AllocError, Global};
use std::collections::HashMap;

/// The owner of the sectors that are on the medium. Unsynced sectors are owned by their host's number.
pub(crate) const MEDIUM: u8 = 0;

/// Sectors of 512 bytes, by their owner, their file's number and their own number in the file. They stand in cells one
/// behind the other, and the index names the cell of each. What the index has of a sector that was taken away is left
/// until the index is full and made anew, since the standard library's map needn't give the room of a key back.
#[derive(Drop)]
pub(crate) struct Sectors {
    room: usize,
    cells: Vec<Cell>,
    index: HashMap<Key, usize>,
    ghost cells_room: { room ≤ vec_capacity cells },
    ghost index_room: { room ≤ hash_map_len index + spare index },
    ghost indexed: { IsIndexed cells.items (get key_eq index) } by { Prim.hlevel props },
}

// Whether two keys are one.
fn is_key(one: Key, other: Key) -> bool
    ensures { result ≡ key_eq one other }
{
    one.0 == other.0 && one.1 == other.1 && one.2 == other.2
}

// The key of a cell.
fn key_at(cells: &[Cell], number: usize) -> Key
    requires { number < length cells.now }
    ensures { result ≡ (cell_at cells.now number).key }
{
    cells[number].key
}

// Names a cell in the index, as that of its key.
fn name_cell(index: &mut HashMap<Key, usize>, key: Key, number: usize)
    requires room { get key_eq index.old key ≡ None → 0 < spare index.old }
    ensures names { (q : ℕ × ℕ × ℕ) → get key_eq index.new q ≡ (if key_eq key q then Some number else get key_eq index.old q) }
    ensures len { hash_map_len index.new ≤ hash_map_len index.old + 1 }
    ensures room { hash_map_len index.old + spare index.old ≤ hash_map_len index.new + spare index.new }
{
    if let Some(named) = index.get_mut(&key) {
        *named = number;
        return;
    }
    let _ = index.insert(key, number);
}

// Names in the index the cells one after the other.
fn name_cells(cells: &[Cell], index: &mut HashMap<Key, usize>)
    requires apart { (i j : ℕ) → i < length cells.now → j < length cells.now → (cell_at cells.now i).key ≡ (cell_at cells.now j).key → i ≡ j }
    requires empty { hash_map_len index.old ≡ 0 }
    requires room { length cells.now ≤ spare index.old }
    ensures indexed { IsIndexed cells.now (get key_eq index.new) }
    ensures len { hash_map_len index.new ≤ length cells.now }
    ensures room { spare index.old ≤ hash_map_len index.new + spare index.new }
{
    for i in 0..cells.len() {
        name_cell(index, key_at(cells, i), i);
    }
}

// Takes the memory for so many cells and for their names.
fn reserve_cells(
    room: usize,
    cells: &mut Vec<Cell>,
    index: &mut HashMap<Key, usize>,
) -> Result<(), AllocError>
    ensures cells { cells.new.items ≡ cells.old.items }
    ensures names { (q : ℕ × ℕ × ℕ) → get key_eq index.new q ≡ get key_eq index.old q }
    ensures cells_no_less { vec_capacity cells.old ≤ vec_capacity cells.new }
    ensures index_no_less { hash_map_len index.old + spare index.old ≤ hash_map_len index.new + spare index.new }
    ensures cells_room { OnOk result (room ≤ vec_capacity cells.new) }
    ensures index_room { OnOk result (room ≤ spare index.new) }
{
    cells.reserve(room)?;
    index.reserve(room.saturating_mul(2))
}

impl Sectors {
    ghost use Rattle.memory_disk.specs.Sectors.{sector_at, kept_count, kept_room};

    /// No sectors, with room for so many.
    pub(crate) fn new(alloc: Global, room: usize) -> Result<Sectors, AllocError>
        ensures empty { IfOk result (λ s. (o f k : ℕ) → sector_at s o f k ≡ None) }
        ensures count { IfOk result (λ s. kept_count s ≡ 0) }
        ensures room { IfOk result (λ s. room ≤ kept_room s) }
    {
        Ok(Sectors {
            room,
            cells: Vec::with_capacity(alloc, room)?,
            index: HashMap::with_capacity(alloc, room.saturating_mul(2))?,
        })
    }

    /// How many sectors are kept.
    pub(crate) fn len(&self) -> usize
        ensures { result ≡ kept_count self.now }
    {
        self.cells.len()
    }

    // The number of a sector's cell.
    fn find(&self, key: Key) -> Option<usize>
        ensures there { IfSome result (λ i. i < vec_len self.now.cells) }
        ensures key { IfSome result (λ i. (cell_at self.now.cells.items i).key ≡ key) }
        ensures named { IfSome result (λ i. get key_eq self.now.index key ≡ Some i) }
        ensures none { result ≡ None → sector_at self.now key.0 key.1 key.2 ≡ None }
    {
        let number = match self.index.get(&key) {
            Some(number) => *number,
            None => return None,
        };
        if number < self.cells.len() && is_key(key_at(&self.cells, number), key) {
            return Some(number);
        }
        None
    }

    /// The bytes of a sector, where it is kept.
    pub(crate) fn get(&self, owner: u8, file: usize, sector: u64) -> Option<[u8; 512]>
        ensures { result ≡ sector_at self.now owner file sector }
    {
        match self.find((owner, file, sector)) {
            Some(number) => Some(self.cells[number].bytes),
            None => None,
        }
    }

    /// A byte of a sector on the medium, 0 where the sector isn't kept.
    pub(crate) fn byte(&self, file: usize, sector: u64, at: usize) -> u8
        requires { at < 512 }
        ensures { result ≡ get_or (unwrap_or (sector_at self.now 0 file sector) zero_sector) at 0 }
    {
        match self.get(MEDIUM, file, sector) {
            Some(bytes) => bytes[at],
            None => 0,
        }
    }

    /// Takes the memory for so many sectors.
    pub(crate) fn reserve(&mut self, room: usize) -> Result<(), AllocError>
        ensures at { (o f k : ℕ) → sector_at self.new o f k ≡ sector_at self.old o f k }
        ensures count { kept_count self.new ≡ kept_count self.old }
        ensures no_less { kept_room self.old ≤ kept_room self.new }
        ensures room { OnOk result (room ≤ kept_room self.new) }
    {
        reserve_cells(room, &mut self.cells, &mut self.index)?;
        self.room = self.room.max(room);
        Ok(())
    }

    // Forgets what the index has of sectors that aren't kept.
    fn reindex(&mut self)
        requires fits { vec_len self.old.cells ≤ self.old.room }
        ensures at { (o f k : ℕ) → sector_at self.new o f k ≡ sector_at self.old o f k }
        ensures count { kept_count self.new ≡ kept_count self.old }
        ensures room { kept_room self.new ≡ kept_room self.old }
        ensures len { hash_map_len self.new.index ≤ vec_len self.new.cells }
    {
        self.index.clear();
        name_cells(&self.cells, &mut self.index);
    }

    // Sees that one more cell can be named.
    fn make_room(&mut self)
        requires room { kept_count self.old < kept_room self.old }
        ensures at { (o f k : ℕ) → sector_at self.new o f k ≡ sector_at self.old o f k }
        ensures count { kept_count self.new ≡ kept_count self.old }
        ensures room { kept_room self.new ≡ kept_room self.old }
        ensures spare { 0 < spare self.new.index }
    {
        if self.index.len() == self.index.capacity() {
            self.reindex();
        }
    }

    // Keeps a sector that isn't kept.
    fn add(&mut self, key: Key, bytes: &[u8; 512])
        requires none { sector_at self.old key.0 key.1 key.2 ≡ None }
        requires room { kept_count self.old < kept_room self.old }
        ensures at { (o f k : ℕ) → sector_at self.new o f k ≡ (if key_eq key (o, f, k) then Some bytes.now else sector_at self.old o f k) }
        ensures count { kept_count self.new ≡ kept_count self.old + 1 }
        ensures room { kept_room self.new ≡ kept_room self.old }
    {
        self.make_room();
        let number = self.cells.len();
        self.cells.push_reserved(Cell { key, bytes: *bytes });
        name_cell(&mut self.index, key, number);
    }

    /// Keeps these bytes for a sector, in place of those that were kept.
    pub(crate) fn put(&mut self, owner: u8, file: usize, sector: u64, bytes: &[u8; 512])
        requires { kept_count self.old < kept_room self.old }
        ensures at { (o f k : ℕ) → sector_at self.new o f k ≡ (if key_eq (owner, file, sector) (o, f, k) then Some bytes.now else sector_at self.old o f k) }
        ensures count { kept_count self.new ≡ kept_count self.old + (if is_some (sector_at self.old owner file sector) then 0 else 1) }
        ensures room { kept_room self.old ≤ kept_room self.new }
    {
        let key = (owner, file, sector);
        match self.find(key) {
            Some(number) => self.cells[number] = Cell { key, bytes: *bytes },
            None => self.add(key, bytes),
        }
    }

    // Takes the sector of a cell away. The last cell comes in its place.
    fn take_cell(&mut self, number: usize)
        requires there { number < vec_len self.old.cells }
        ensures at { (o f k : ℕ) → sector_at self.new o f k ≡ (if key_eq (cell_at self.old.cells.items number).key (o, f, k) then None else sector_at self.old o f k) }
        ensures cells { (j : ℕ) → j ≢ number → j + 1 < vec_len self.old.cells → cell_at self.new.cells.items j ≡ cell_at self.old.cells.items j }
        ensures moved { number + 1 < vec_len self.old.cells → cell_at self.new.cells.items number ≡ cell_at self.old.cells.items (vec_len self.old.cells - 1) }
        ensures count { kept_count self.new + 1 ≡ kept_count self.old }
        ensures room { kept_room self.new ≡ kept_room self.old }
    {
        let _ = self.cells.swap_remove(number);
        if number == self.cells.len() {
            return;
        }
        name_cell(&mut self.index, key_at(&self.cells, number), number);
    }

    /// Keeps a sector no more.
    pub(crate) fn take(&mut self, owner: u8, file: usize, sector: u64)
        ensures at { (o f k : ℕ) → sector_at self.new o f k ≡ (if key_eq (owner, file, sector) (o, f, k) then None else sector_at self.old o f k) }
        ensures count { kept_count self.new ≤ kept_count self.old }
        ensures room { kept_room self.new ≡ kept_room self.old }
    {
        if let Some(number) = self.find((owner, file, sector)) {
            self.take_cell(number);
        }
    }

    // Keeps none of the first sectors of a file.
    fn take_first(&mut self, file: usize, size: u64)
        ensures gone { (k : ℕ) → k < size → sector_at self.new 0 file k ≡ None }
        ensures rest { (k : ℕ) → sector_at self.old 0 file k ≡ None → sector_at self.new 0 file k ≡ None }
        ensures others { (n k : ℕ) → n ≢ file → sector_at self.new 0 n k ≡ sector_at self.old 0 n k }
        ensures count { kept_count self.new ≤ kept_count self.old }
        ensures room { kept_room self.new ≡ kept_room self.old }
    {
        for k in 0..size {
            self.take(MEDIUM, file, k);
        }
    }

    // Takes the sector of a cell away, where it is the file's.
    fn take_if(&mut self, file: usize, number: usize)
        requires there { number < vec_len self.old.cells }
        requires seen { (j : ℕ) → number < j → j < vec_len self.old.cells → (cell_at self.old.cells.items j).key.1 ≢ file }
        ensures seen { (j : ℕ) → number ≤ j → j < vec_len self.new.cells → (cell_at self.new.cells.items j).key.1 ≢ file }
        ensures others { (n k : ℕ) → n ≢ file → sector_at self.new 0 n k ≡ sector_at self.old 0 n k }
        ensures count { kept_count self.new ≤ kept_count self.old }
        ensures one { kept_count self.old ≤ kept_count self.new + 1 }
        ensures room { kept_room self.new ≡ kept_room self.old }
    {
        if key_at(&self.cells, number).1 == file {
            self.take_cell(number);
        }
    }

    // Keeps none of a file's sectors, by a look at each cell.
    fn take_all(&mut self, file: usize)
        ensures gone { (k : ℕ) → sector_at self.new 0 file k ≡ None }
        ensures others { (n k : ℕ) → n ≢ file → sector_at self.new 0 n k ≡ sector_at self.old 0 n k }
        ensures count { kept_count self.new ≤ kept_count self.old }
        ensures room { kept_room self.new ≡ kept_room self.old }
    {
        let count = self.cells.len();
        for i in 0..count {
            self.take_if(file, count - 1 - i);
        }
    }

    /// Keeps none of a file's sectors on the medium, which lie below `size`. It looks at these sectors or at those that are
    /// kept, whichever are fewer.
    pub(crate) fn take_file(&mut self, file: usize, size: u64)
        requires { (k : ℕ) → size ≤ k → sector_at self.old 0 file k ≡ None }
        ensures gone { (k : ℕ) → sector_at self.new 0 file k ≡ None }
        ensures others { (n k : ℕ) → n ≢ file → sector_at self.new 0 n k ≡ sector_at self.old 0 n k }
        ensures count { kept_count self.new ≤ kept_count self.old }
        ensures room { kept_room self.new ≡ kept_room self.old }
    {
        if size <= self.cells.len() as u64 {
            self.take_first(file, size);
        } else {
            self.take_all(file);
        }
    }
}
