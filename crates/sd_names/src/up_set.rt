// The hosts that are up.
ghost use Rattle.std.specs.Prelude.{◌≡◌, ◌≢◌, ℕ, true, false, replicate, slice_set, count_by, IfSome, IfNone, IsTrue};
ghost use Rattle.sd_names.specs.UpSet.{is_up, IsLeastBut};

use crate::HostId;
use std::marker::Model;

/// The hosts that are up. A contract sees a test for each number from 0 to 250; 0 is no host.
#[derive(Clone, Copy, Debug)]
pub struct UpSet {
    up: [bool; 251],
}

impl Model for UpSet {
    ghost use Rattle.std.specs.Prelude.{◌≡◌, false, length};
    ghost use Rattle.sd_names.specs.UpSet.{Hosts, is_up};

    ghost Value = { Hosts };

    ghost view = { λ s. s.up };

    ghost invariant = { λ s. (length s.up ≡ 251) × (is_up s.up 0 ≡ false) };

    ghost inverse = { λ hosts. record { up = hosts } };
}

impl UpSet {
    /// No host.
    pub fn new() -> UpSet
        ensures { result ≡ replicate 251 false }
    {
        UpSet { up: [false; 251] }
    }

    /// Puts a host into the set.
    pub fn add(&mut self, host: HostId)
        ensures set { self.new ≡ slice_set self.old host true }
        ensures added { is_up self.new host ≡ true }
        ensures others { (h : ℕ) → h ≢ host → is_up self.new h ≡ is_up self.old h }
    {
        self.up[host.get() as usize] = true;
    }

    /// Takes a host out of the set.
    pub fn remove(&mut self, host: HostId)
        ensures set { self.new ≡ slice_set self.old host false }
        ensures removed { is_up self.new host ≡ false }
        ensures others { (h : ℕ) → h ≢ host → is_up self.new h ≡ is_up self.old h }
    {
        self.up[host.get() as usize] = false;
    }

    /// Whether a host is in the set.
    pub fn has(&self, host: HostId) -> bool
        ensures { result ≡ is_up self.now host }
    {
        self.up[host.get() as usize]
    }

    /// The least host of the set other than `host`.
    pub fn least_but(&self, host: HostId) -> Option<HostId>
        ensures least { IfSome result (IsLeastBut self.now host) }
        ensures none { IfNone result ((h : ℕ) → h ≢ host → is_up self.now h ≡ false) }
    {
        for number in 1..=250u8 {
            if number != host.get() && self.up[number as usize] {
                return HostId::new(u64::from(number));
            }
        }
        None
    }

    /// How many hosts the set has, 0 to 250.
    pub fn count(&self) -> u16
        ensures { result ≡ count_by (λ up. up) self.now }
    {
        self.up.iter().filter(|up| **up).count() as u16
    }
}

#[cfg(test)]
mod tests {
    use super::*;
    use std::test::Fail;

    #[test]
    fn hosts_come_and_go(rt: HostRuntime) -> Result<(), Fail> {
        let two = HostId::new(2).ok_or("2")?;
        let last = HostId::new(250).ok_or("250")?;
        let mut up = UpSet::new();
        assert!(rt; up.count() == 0);
        assert!(rt; up.least_but(two).is_none());
        up.add(last);
        up.add(two);
        assert!(rt; up.has(two));
        assert!(rt; up.count() == 2);
        assert!(rt; up.least_but(two).ok_or("one")?.get() == 250);
        assert!(rt; up.least_but(last).ok_or("one")?.get() == 2);
        up.remove(two);
        assert!(rt; !up.has(two));
        assert!(rt; up.has(last));
        Ok(())
    }

    #[test]
    fn hosts_are_1_to_250(rt: HostRuntime) {
        for number in [0, 251, 256, 257, u64::MAX] {
            assert!(rt; HostId::new(number).is_none());
        }
        for number in [1, 250] {
            assert!(rt; HostId::new(number).is_some());
        }
    }
}
