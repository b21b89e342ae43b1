// A shelf that always faults: an example of how a supplier writes a shelf of his own.
#![tactic(auto)]

ghost use Rattle.std.specs.Prelude.{◌≡◌, ℕ, ◌&&◌, ◌||◌, length, Err, ◌==◌, nat_lt};
ghost use Rattle.broken_shelf.specs.Broken.{AlwaysFaults, AlwaysFaultsRenewal, broken, fault};
ghost use Rattle.shelf.specs.Meaning.{Marked, out_of_range, Within};
ghost use Rattle.units.specs.Sets.{Inserts};
ghost use Rattle.std.proofs.Common.{rules};

use denial::fault::ShelfFault;
use shelf::extent::Extent;
use shelf::{MOST_DISKS, Place, Shelf, fault_at};
use units::set::Set;

// 32 disks of these rows. Every read, write and renewal in range faults with this code and marks its disk.
#[derive(Clone, Copy)]
pub struct BrokenShelf {
    rows: usize,
    code: u8,
    marks: Set,
}

impl BrokenShelf {
    // A code under 2 is taken as 2, one over 8 as 8. It is a number, by a rule of the project, as that of every shelf fault.
    pub fn new(rows: usize, code: u8) -> BrokenShelf
        ensures rows { result.rows ≡ rows }
        ensures code { result.code ≡ code }
        ensures marks { result.marks ≡ 0 }
    {
        BrokenShelf {
            rows,
            code,
            marks: Set::EMPTY,
        }
    }

    // Tried as a method of the trait: the calls below that ask for it close a cycle with it, which is refused.
    fn extent(&self) -> Extent
        ensures disks { result.disks ≡ 32 }
        ensures rows { result.rows ≡ self.now.rows }
    {
        Extent {
            disks: MOST_DISKS,
            rows: self.rows,
        }
    }

    // Marks the disk, and gives its fault. An example shows the whole of what a supplier writes, so this stands here too.
    fn fail(&mut self, place: Place) -> ShelfFault
        ensures answer { Err result ≡ fault self.old place }
        ensures marks { Inserts self.old.marks self.new.marks place.disk }
        ensures others { self.new ≡ record self.old { marks = self.new.marks } }
    {
        self.marks.insert(place.disk);
        fault_at(self.code.clamp(2, 8), place)
    }

    // What a read and a write of `len` bytes come to: in range a fault.
    fn access(&mut self, place: Place, len: usize) -> Result<(), ShelfFault>
        ensures faults { AlwaysFaults self.old place len result self.new }
        ensures inside { Within 32 self.old.rows place len
            → Marked (broken self.old) place.disk (broken self.new) }
        ensures outside { (¬ Within 32 self.old.rows place len)
            → (result ≡ out_of_range place) × (self.new ≡ self.old) }
    {
        self.extent().check(place, len)?;
        Err(self.fail(place))
    }
}

impl Shelf for BrokenShelf {
    ghost meaning = { broken };

    ghost reading = { λ s p before a _ t. AlwaysFaults s p (length before) a t };

    ghost writing = { λ s p bytes a t. AlwaysFaults s p (length bytes) a t };

    ghost renewing = { AlwaysFaultsRenewal };

    ghost lawful = { Prim.search rules };

    fn read(&mut self, place: Place, buffer: &mut [u8]) -> Result<(), ShelfFault> {
        self.access(place, buffer.len())
    }

    fn write(&mut self, place: Place, bytes: &[u8]) -> Result<(), ShelfFault> {
        self.access(place, bytes.len())
    }

    fn renew(&mut self, disk: usize) -> Result<(), ShelfFault> {
        self.extent().check_disk(disk)?;
        Err(self.fail(Place { disk, row: 0 }))
    }

    fn disks(&self) -> usize {
        MOST_DISKS
    }

    fn rows(&self) -> usize {
        self.rows
    }

    fn marked(&self, disk: usize) -> bool {
        disk < MOST_DISKS && self.marks.contains(disk)
    }
}
