// A raw volume: where its file is, how many bytes it has, and how many the file was seen to have.
ghost use Rattle.std.specs.Prelude.{◌≡◌};

use sd_names::Place;

/// A raw volume. Its file holds its bytes, one after the other; past the file's end it reads as zeros.
#[derive(Clone, Copy, Debug)]
pub struct Raw {
    pub(crate) place: Place,
    pub(crate) capacity: u64,
    pub(crate) length: u64,
}

impl Raw {
    ghost use Rattle.raw_layer.specs.Raw.{place_of, capacity_of, known_length_of};

    /// A raw volume whose file is at this place: its capacity, and the length that its file had when it was asked,
    /// both in bytes. The file may have become longer since.
    pub fn new(place: Place, capacity: u64, length: u64) -> Raw
        ensures place { place_of result ≡ place }
        ensures capacity { capacity_of result ≡ capacity }
        ensures length { known_length_of result ≡ length }
    {
        Raw {
            place,
            capacity,
            length,
        }
    }

    /// The capacity, in bytes.
    pub fn capacity(&self) -> u64
        ensures { result ≡ capacity_of self.now }
    {
        self.capacity
    }
}
