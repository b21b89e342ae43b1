// A set of numbers from 0 to 31: members, disks, buffers or nodes.
ghost use Rattle.std.specs.Prelude.{◌≡◌, ℕ, ◌<◌, ◌≤◌, ◌↔◌, false, not, ◌&&◌, ◌||◌, length, IfSome, IsTrue, MatchOption, count_ones};
ghost use Rattle.units.specs.Sets.{elements, has, Inserts, Lowest, Removes, Subset};

use std::marker::Model;

// How many numbers a set can hold.
pub const LIMIT: usize = 32;

// Number i is in the set where bit i of `bits` is set. In contracts a set is the number `bits`. The field is public for constants, which can call no
// function; elsewhere `From` goes both ways.
#[derive(Clone, Copy, PartialEq, Eq, Debug)]
pub struct Set {
    pub bits: u32,
}

impl Model for Set {
    ghost Value = { ℕ };

    ghost view = { λ s. s.bits };

    ghost inverse = { λ n. record { bits = n } };
}

impl Set {
    pub const EMPTY: Set = Set { bits: 0 };

    #[tactic(auto, using(crate::proofs::Sets::contained, crate::proofs::Sets::none_over))]
    pub fn contains(self, i: usize) -> bool
        ensures there { result ≡ has self i }
        ensures over { 32 ≤ i → result ≡ false }
    {
        i < LIMIT && (self.bits >> i) & 1 == 1
    }

    // Puts `i` in; a number over 31 is left out.
    #[tactic(auto, using(crate::proofs::Sets::inserted))]
    pub fn insert(&mut self, i: usize)
        ensures { Inserts self.old self.new i }
    {
        if i < LIMIT {
            self.bits |= 1 << i;
        }
    }

    #[tactic(auto, using(crate::proofs::Sets::removed, crate::proofs::Sets::none_over))]
    pub fn remove(&mut self, i: usize)
        ensures taken { Removes self.old self.new i }
        ensures over { 32 ≤ i → self.new ≡ self.old }
    {
        // Read before the test, since a number over 31 is in no set of 32 bits.
        let bits = self.bits;
        if i < LIMIT {
            self.bits = bits & !(1 << i);
        }
    }

    #[tactic(auto, using(crate::proofs::Sets::has_or))]
    pub fn union(self, other: Set) -> Set
        ensures { (j : ℕ) → has result j ≡ (has self j || has other j) }
    {
        Set {
            bits: self.bits | other.bits,
        }
    }

    #[tactic(auto, using(crate::proofs::Sets::left))]
    pub fn difference(self, other: Set) -> Set
        ensures { (j : ℕ) → has result j ≡ (has self j && not (has other j)) }
    {
        Set {
            bits: self.bits & !other.bits,
        }
    }

    #[tactic(auto, using(crate::proofs::Sets::within))]
    pub fn is_subset(self, other: Set) -> bool
        ensures { IsTrue result ↔ Subset self other }
    {
        self.bits & other.bits == self.bits
    }

    // How many numbers are in the set.
    #[tactic(auto, using(crate::proofs::Counts::ones_elements))]
    pub fn len(self) -> u32
        ensures ones { result ≡ count_ones self }
        ensures counts { result ≡ length (elements 32 self) }
    {
        self.bits.count_ones()
    }

    // The lowest number in the set, or none where it is empty.
    #[tactic(auto, using(crate::proofs::Counts::lowest_there, crate::proofs::Counts::none_below_lowest, crate::proofs::Sets::has_none))]
    pub fn lowest(self) -> Option<usize>
        ensures lowest { MatchOption result ((j : ℕ) → has self j ≡ false) (λ i. Lowest self i) }
        ensures below { IfSome result (λ i. i < 32) }
    {
        if self.bits == 0 {
            return None;
        }
        Some(self.bits.trailing_zeros() as usize)
    }
}

// A set is made from its bits, and gives them back.
impl From<u32> for Set {
    ghost from_gives = { λ bits s. s ≡ bits };

    fn from(bits: u32) -> Set {
        Set { bits }
    }
}

impl From<Set> for u32 {
    ghost from_gives = { λ s bits. bits ≡ s };

    fn from(set: Set) -> u32 {
        set.bits
    }
}
