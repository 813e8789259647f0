ghost use Rattle.std.specs.Prelude.{◌≡◌, ℕ, ◌-◌, ◌/◌, ◌^◌, min, false, ◌&&◌, ◌||◌, ◌==◌, nat_lt, slice_index};
ghost use Rattle.regs.specs.Sets.{first_regs, member};

use crate::reg::PReg;
use std::array;

/// A set of physical registers: bit b of word w is register 64 × w + b.
#[derive(Clone, Copy, Debug, PartialEq, Eq)]
pub struct PRegSet {
    pub bits: [u64; 3],
}

impl PRegSet {
    /// No register.
    pub fn empty() -> PRegSet
        ensures { (n : ℕ) → member result n ≡ false }
    {
        PRegSet { bits: [0; 3] }
    }

    /// The registers below `count`, or below 64 where that is less.
    pub fn first(count: u8) -> PRegSet
        ensures members { (n : ℕ) → member result n ≡ nat_lt n (min count 64) }
        ensures words { result ≡ first_regs (min count 64) }
    {
        PRegSet {
            bits: [ones(count), 0, 0],
        }
    }

    /// The registers of both sets.
    pub fn union(self, other: PRegSet) -> PRegSet
        ensures { (n : ℕ) → member result n ≡ member self n || member other n }
    {
        PRegSet {
            bits: array::from_fn(|w| self.bits[w] | other.bits[w]),
        }
    }

    /// Adds a register; nothing where there is no such register.
    pub fn add(&mut self, reg: PReg)
        ensures { (n : ℕ) → member self.new n ≡ member self.old n || (n == reg.0 && nat_lt n 192) }
    {
        let w = usize::from(reg.0 / 64);
        if w < self.bits.len() {
            self.bits[w] |= 1 << (reg.0 % 64);
        }
    }

    /// Whether the register is in the set.
    pub fn contains(self, reg: PReg) -> bool
        ensures { result ≡ member self reg.0 }
    {
        (self.word_of(reg) >> (reg.0 % 64)) & 1 == 1
    }

    // The word that has the register's bit; 0 where there is none. By ranges: an index takes the set through memory,
    // and a match on the number of the word can become a jump by a table.
    fn word_of(self, reg: PReg) -> u64
        ensures { result ≡ slice_index self.bits (reg.0 / 64) }
    {
        let [low, middle, high] = self.bits;
        match reg.0 {
            0..64 => low,
            64..128 => middle,
            128..192 => high,
            _ => 0,
        }
    }
}

// A word whose lowest `count` bits are set, or all where there are fewer.
fn ones(count: u8) -> u64
    ensures { result ≡ 2 ^ min count 64 - 1 }
{
    if count < 64 {
        (1u64 << count) - 1
    } else {
        u64::MAX
    }
}
