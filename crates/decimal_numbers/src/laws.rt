// Laws of numbers: contracts of functions that do nothing.
ghost use Rattle.std.specs.Prelude.{◌≡◌, ℕ, ◌^◌, ◌<◌, ◌≤◌, Some, length, decimal};
ghost use Rattle.decimal_numbers.specs.Number.{number_of};

/// A law: a number below 2^64, in decimal, has at most 20 digits and reads as itself.
pub fn numbers_read_back()
    ensures same { (n : ℕ) → n < 2 ^ 64 → number_of (decimal n) ≡ Some n }
    ensures short { (n : ℕ) → n < 2 ^ 64 → length (decimal n) ≤ 20 }
{}
