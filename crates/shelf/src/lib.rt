// Shelves: the way to the disks, whoever supplies them.
#![tactic(auto)]

ghost use Rattle.std.specs.Prelude.{◌≡◌, ℕ, List};
ghost use Rattle.shelf.specs.Changes.{ExactChanges};
ghost use Rattle.shelf.specs.Meaning.{Answer, fault_at, Lawful, marked, Meaning, Reads, Renews, Writes};
ghost use Rattle.shelf.specs.Runs.{Remembers};
ghost use Rattle.units.specs.declared.place.Place.{Place};

use denial::fault::ShelfFault;
pub use units::place::Place;

pub mod extent;
pub mod fault;
pub mod memory;
pub mod script;

// The most disks that a shelf may have.
pub const MOST_DISKS: usize = 32;

// The fault with this code at a place.
pub fn fault_at(code: u8, place: Place) -> ShelfFault
    ensures { result ≡ fault_at code place }
{
    ShelfFault {
        code,
        disk: place.disk,
        row: place.row,
    }
}

// Disks of rows of units of 512 bytes, and a mark for each disk. A call may fault whenever it likes, but only as its relation
// says; no call asks anything of its caller.
pub trait Shelf {
    ghost meaning: { Self → Meaning };

    // What a supplier says of each call besides, over its own state before and after; nothing, unless it says so.
    ghost reading: { Self → Place → List ℕ → Answer → List ℕ → Self → Type 0 } = { λ _ _ _ _ _ _. Unit {0} };

    ghost writing: { Self → Place → List ℕ → Answer → Self → Type 0 } = { λ _ _ _ _ _. Unit {0} };

    ghost renewing: { Self → ℕ → Answer → Self → Type 0 } = { λ _ _ _ _. Unit {0} };

    // Fills the buffer from the place; on a fault it stays as it was.
    fn read(&mut self, place: Place, buffer: &mut [u8]) -> Result<(), ShelfFault>
        ensures reads { Reads (meaning self.old) place buffer.old result
            buffer.new (meaning self.new) }
        ensures besides { reading self.old place buffer.old result buffer.new self.new };

    // Puts `bytes` at the place; a fault may leave any unit there.
    fn write(&mut self, place: Place, bytes: &[u8]) -> Result<(), ShelfFault>
        ensures writes { Writes (meaning self.old) place bytes.now result (meaning self.new) }
        ensures besides { writing self.old place bytes.now result self.new };

    // Puts a fresh disk in the place of this one: its mark is cleared, and it may hold anything.
    fn renew(&mut self, disk: usize) -> Result<(), ShelfFault>
        ensures renews { Renews (meaning self.old) disk result (meaning self.new) }
        ensures besides { renewing self.old disk result self.new };

    fn disks(&self) -> usize
        ensures { result ≡ (meaning self.now).disks };

    fn rows(&self) -> usize
        ensures { result ≡ (meaning self.now).rows };

    // Whether the disk is marked; false out of range.
    fn marked(&self, disk: usize) -> bool
        ensures { result ≡ marked (meaning self.now) disk };

    ghost lawful: { (s : Self) → Lawful (meaning s) };
}

// What a call changes, and that it changes nothing else, as equations of meanings.
#[tactic(auto, using(crate::proofs::Equal::exact_changes))]
pub fn exact_changes()
    ensures { ExactChanges }
{}

// What follows for every shelf over whole lists of calls: its places hold what was last put there, and its marks tell which disks
// have faulted since they were renewed.
#[tactic(auto, using(crate::proofs::Runs::remembers))]
pub fn remembers()
    ensures { Remembers }
{}
