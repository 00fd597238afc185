// Hosts: the machines that mount the folder, by number.
ghost use Rattle.std.specs.Prelude.{◌≡◌, ◌≤◌, IfSome, IsSome, ◌↔◌};

use std::marker::Model;

/// A host by its number, 1 to 250. A contract sees the number.
#[derive(Clone, Copy, Debug)]
pub struct HostId {
    number: u8,
}

impl Model for HostId {
    ghost use Rattle.std.specs.Prelude.{ℕ, ◌≤◌};

    ghost Value = { ℕ };

    ghost view = { λ h. h.number };

    ghost invariant = { (λ h. (1 ≤ h.number) × (h.number ≤ 250)) };

    ghost inverse = { λ n. record { number = n } };
}

impl HostId {
    /// The host of a number, if it is one of 1 to 250.
    pub fn new(number: u64) -> Option<HostId>
        ensures known { IsSome result ↔ ((1 ≤ number) × (number ≤ 250)) }
        ensures value { IfSome result (λ h. h ≡ number) }
    {
        if number < 1 || number > 250 {
            return None;
        }
        Some(HostId {
            number: number as u8,
        })
    }

    /// The host's number, 1 to 250.
    pub fn get(&self) -> u8
        ensures value { result ≡ self.now }
        ensures low { 1 ≤ result }
        ensures high { result ≤ 250 }
    {
        self.number
    }
}
