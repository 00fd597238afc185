// A box of 64 slots.
ghost use Rattle.std.specs.Prelude.{◌≡◌, ◌<◌, ◌≤◌, ℕ, [], length, slice_set, IfSome, IfNone, IsTrue};
ghost use Rattle.std.specs.Borrow.{sem};
ghost use Rattle.mail_box.specs.Slots.{bytes_of, bytes_at, slot_at, IsEmpty, seal_of, is_sealed};
ghost use Rattle.mail_box.specs.Lending.{LendsSlot};
ghost use Rattle.mail_box.specs.Spelling.{messages_of};

use crate::messages::Messages;
use sha1::Sha1;
use std::marker::Model;

/// A box of an inbox or outbox. A contract sees its 64 slots, each a list of 64 bytes.
#[derive(Debug, Drop)]
pub struct Mailbox {
    slots: [[u8; 64]; 64],
}

impl Model for Mailbox {
    ghost use Rattle.std.specs.Prelude.{ℕ, List};

    ghost Value = { List (List ℕ) };

    ghost view = { λ b. b.slots };
}

impl Mailbox {
    /// The box of these bytes: slot k is bytes 64 k to 64 k + 63.
    pub fn from_bytes(bytes: [u8; 4096]) -> Mailbox
        ensures bytes { bytes_of result ≡ bytes }
        ensures slots { (k : ℕ) → k < 64 → slot_at result k ≡ bytes_at bytes k }
        ensures count { length result ≡ 64 }
    {
        let mut slots = [[0; 64]; 64];
        slots.copy_from_slice(bytes.as_chunks().0);
        Mailbox { slots }
    }

    /// Its bytes.
    pub fn bytes(&self) -> &[u8; 4096]
        ensures { result.now ≡ bytes_of self.now }
    {
        match self.slots.as_flattened().as_array() {
            Some(bytes) => bytes,
            None => unreachable!(),
        }
    }

    /// Slot `k`, which is below 64.
    pub fn slot(&self, k: usize) -> &[u8; 64]
        requires { k < 64 }
        ensures { result.now ≡ slot_at self.now k }
    {
        &self.slots[k]
    }

    /// Slot `k`, which is below 64, lent to be written: no other slot changes.
    pub fn slot_mut(&mut self, k: usize) -> &mut [u8; 64]
        requires { k < 64 }
        ensures* writes { sem 𝓛 (LendsSlot self.entry k result) }
        ensures value { result.now ≡ slot_at self.old k }
    {
        &mut self.slots[k]
    }

    /// The messages of a sealed box with their slots, in order. A box that isn't sealed has none.
    pub fn messages(&self) -> Messages<'_>
        ensures messages { result ≡ messages_of self.now }
        ensures few { length result ≤ 63 }
    {
        Messages::new(self)
    }

    /// The first of the slots 0 to 62 that nobody uses. A slot of other bytes than a message's is used, if it
    /// isn't zeros.
    pub fn first_empty(&self) -> Option<usize>
        ensures empty { IfSome result (λ k. (k < 63) × IsEmpty (slot_at self.now k)) }
        ensures first { IfSome result (λ k. (j : ℕ) → j < k → ¬ IsEmpty (slot_at self.now j)) }
        ensures full { IfNone result ((k : ℕ) → k < 63 → ¬ IsEmpty (slot_at self.now k)) }
    {
        for k in 0..63 {
            if self.slots[k] == [0; 64] {
                return Some(k);
            }
        }
        None
    }

    // What slot 63 of the sealed box holds.
    fn digest(&self) -> [u8; 64]
        ensures { result ≡ seal_of self.now }
    {
        let mut seal = [0; 64];
        seal[..20].copy_from_slice(&Sha1::digest(self.slots[..63].as_flattened()));
        seal
    }

    /// Seals the box: slot 63 gets the SHA-1 of the slots before it, and no other slot changes.
    pub fn seal(&mut self)
        ensures slots { self.new ≡ slice_set self.old 63 (seal_of self.old) }
        ensures sealed { IsTrue (is_sealed self.new) }
    {
        let seal = self.digest();
        self.slots[63] = seal;
    }

    /// Whether slot 63 is the seal of the slots before it.
    pub fn is_sealed(&self) -> bool
        ensures { result ≡ is_sealed self.now }
    {
        self.slots[63] == self.digest()
    }
}
