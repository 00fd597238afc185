// A set of numbers below a bound, one bit for each.
ghost use Rattle.std.specs.Prelude.{◌≡◌, ◌≢◌, ℕ, ◌*◌, ◌%◌, ◌^◌, ◌<◌, ◌≤◌, true, false, IfOk, vec_len};
ghost use Rattle.std.specs.Int.{div_ceil};

use sd_names::NoMemory;
use std::alloc::Global;

/// A set of numbers. Its room is taken when it is made.
#[derive(Debug, Drop)]
pub struct Bits {
    words: Vec<u64>,
    ghost few: { vec_len words ≤ 2 ^ 47 },
}

impl Bits {
    ghost use Rattle.layer_walk.specs.Bits.{IsMissing, has, room_of};

    /// The set of all numbers below `count`, rounded up to whole words of 64.
    pub fn full(alloc: Global, count: u64) -> Result<Bits, NoMemory>
        requires { count ≤ 2 ^ 53 }
        ensures full { IfOk result (λ bits. (n : ℕ) → n < room_of bits → has bits n ≡ true) }
        ensures room { IfOk result (λ bits. room_of bits ≡ 64 * div_ceil count 64) }
    {
        match Vec::from_elem(alloc, u64::MAX, count.div_ceil(64) as usize) {
            Ok(words) => Ok(Bits { words }),
            Err(_) => Err(NoMemory),
        }
    }

    /// How many numbers have a bit.
    pub fn room(&self) -> u64
        ensures { result ≡ room_of self.now }
    {
        64 * self.words.len() as u64
    }

    /// Whether a number is in the set. One without a bit isn't.
    pub fn has(&self, n: u64) -> bool
        ensures { result ≡ has self.now n }
    {
        match self.words.get((n / 64) as usize) {
            Some(word) => (*word >> (n % 64)) % 2 == 1,
            None => false,
        }
    }

    /// Puts a number into the set.
    pub fn add(&mut self, n: u64)
        requires { n < room_of self.old }
        ensures here { has self.new n ≡ true }
        ensures others { (k : ℕ) → k ≢ n → has self.new k ≡ has self.old k }
        ensures room { room_of self.new ≡ room_of self.old }
    {
        self.words[(n / 64) as usize] |= 1 << (n % 64);
    }

    /// Takes a number out of the set.
    pub fn remove(&mut self, n: u64)
        requires { n < room_of self.old }
        ensures here { has self.new n ≡ false }
        ensures others { (k : ℕ) → k ≢ n → has self.new k ≡ has self.old k }
        ensures room { room_of self.new ≡ room_of self.old }
    {
        self.words[(n / 64) as usize] &= !(1 << (n % 64));
    }

    /// Puts all numbers below `end` into the set that have a bit. `end` is a multiple of 64.
    pub fn fill_below(&mut self, end: u64)
        requires { end % 64 ≡ 0 }
        ensures below { (n : ℕ) → n < end → n < room_of self.old → has self.new n ≡ true }
        ensures others { (n : ℕ) → end ≤ n → has self.new n ≡ has self.old n }
        ensures room { room_of self.new ≡ room_of self.old }
    {
        let count = self.words.len().min((end / 64) as usize);
        for k in 0..count {
            self.words[k] = u64::MAX;
        }
    }

    /// A number from `first` up to `end` that has a bit and isn't in the set. Both are multiples of 64.
    pub fn missing(&self, first: u64, end: u64) -> Option<u64>
        requires first { first % 64 ≡ 0 }
        requires end { end % 64 ≡ 0 }
        ensures { IsMissing first end self.now result }
    {
        let last = self.words.len().min((end / 64) as usize);
        for k in (first / 64) as usize..last {
            let word = self.words[k];
            if word != u64::MAX {
                return Some(64 * k as u64 + u64::from(word.trailing_ones()));
            }
        }
        None
    }
}
