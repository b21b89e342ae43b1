// A shelf over another, whose reads and writes fault by a script.
ghost use Rattle.std.specs.Prelude.{◌≡◌, ℕ, Ok, OnOk, ◌&&◌, ◌||◌, ◌==◌, nat_lt};
ghost use Rattle.shelf.specs.Fault.{ByScript, over, Reached, Reading, Renewing, Writing};
ghost use Rattle.shelf.specs.Meaning.{fault_at, out_of_range};
ghost use Rattle.shelf.specs.Script.{Adds, code, count, Fresh};
ghost use Rattle.units.specs.Sets.{Inserts};
ghost use Rattle.std.proofs.Common.{rules};

use crate::extent::Extent;
use crate::script::{Cause, FaultScript};
use crate::{Place, Shelf, fault_at};
use denial::Denial;
use denial::fault::ShelfFault;
use units::set::Set;

// It counts the accesses in range, faults those that are due, and passes the others down. It keeps marks of its own.
#[derive(Drop)]
pub struct FaultShelf<S> {
    below: S,
    script: FaultScript,
    marks: Set,
}

impl<S: Shelf> FaultShelf<S> {
    // A fault shelf with no line and no mark of its own.
    pub fn new(below: S) -> FaultShelf<S>
        ensures below { result.below ≡ below }
        ensures script { Fresh result.script }
        ensures marks { result.marks ≡ 0 }
    {
        FaultShelf {
            below,
            script: FaultScript::new(),
            marks: Set::EMPTY,
        }
    }

    // One line more in the script: the `at`th access of the disk faults with the cause of this number; numbers of any size, as in a line.
    pub fn add(&mut self, disk: usize, at: usize, cause: usize) -> Result<(), Denial>
        ensures script { Adds self.old.script disk at cause result self.new.script }
        ensures others { self.new ≡ record self.old { script = self.new.script } }
    {
        self.script.add(disk, at, cause)
    }

    // How many reads and writes of the disk were counted.
    pub fn count(&self, disk: usize) -> u32
        ensures { result ≡ count self.now.script disk }
    {
        self.script.count(disk)
    }

    // Taken apart: the shelf below and the script, as they are now. No `From`: a tuple would not say which parts these are.
    pub fn into_parts(self) -> (S, FaultScript)
        ensures below { result.0 ≡ self.below }
        ensures script { result.1 ≡ self.script }
    {
        (self.below, self.script)
    }

    // Tried as a method of the trait: in a supplier's calls that ask for it, it closes a cycle of calls, which is refused.
    fn extent(&self) -> Extent
        ensures disks { result.disks ≡ (S.meaning self.now.below).disks }
        ensures rows { result.rows ≡ (S.meaning self.now.below).rows }
    {
        Extent {
            disks: self.below.disks(),
            rows: self.below.rows(),
        }
    }

    // Marks the disk here, and gives the fault of this cause. A supplier's example has the same again, to be whole.
    fn fail(&mut self, place: Place, cause: Cause) -> ShelfFault
        ensures fault { result ≡ fault_at (code cause) place }
        ensures marks { Inserts self.old.marks self.new.marks place.disk }
        ensures others { self.new ≡ record self.old { marks = self.new.marks } }
    {
        self.marks.insert(place.disk);
        fault_at(cause.code(), place)
    }

    // What a read and a write of `len` bytes come to before the shelf below is asked: a fault where it is not to be asked.
    fn admit(&mut self, place: Place, len: usize) -> Result<(), ShelfFault>
        ensures script { ByScript S.Shelf.meaning self.old place len result self.new
            (result ≡ Ok tt) }
        ensures outside { (¬ Reached S.Shelf.meaning self.old place len)
            → result ≡ out_of_range place }
        ensures passes { OnOk result (self.new ≡ record self.old { script = self.new.script }) }
        ensures below { self.new.below ≡ self.old.below }
    {
        self.extent().check(place, len)?;
        match self.script.access(place.disk) {
            Some(cause) => Err(self.fail(place, cause)),
            None => Ok(()),
        }
    }
}

impl<S: Shelf> Shelf for FaultShelf<S> {
    ghost meaning = { over S.Shelf.meaning };

    ghost reading = { Reading S.Shelf.meaning S.Shelf.reading };

    ghost writing = { Writing S.Shelf.meaning S.Shelf.writing };

    ghost renewing = { Renewing S.Shelf.meaning S.Shelf.renewing };

    ghost lawful = { Prim.search rules };

    fn read(&mut self, place: Place, buffer: &mut [u8]) -> Result<(), ShelfFault> {
        self.admit(place, buffer.len())?;
        self.below.read(place, buffer)
    }

    fn write(&mut self, place: Place, bytes: &[u8]) -> Result<(), ShelfFault> {
        self.admit(place, bytes.len())?;
        self.below.write(place, bytes)
    }

    fn renew(&mut self, disk: usize) -> Result<(), ShelfFault> {
        self.below.renew(disk)?;
        self.script.renew(disk);
        self.marks.remove(disk);
        Ok(())
    }

    fn disks(&self) -> usize {
        self.below.disks()
    }

    fn rows(&self) -> usize {
        self.below.rows()
    }

    fn marked(&self, disk: usize) -> bool {
        disk < self.below.disks() && (self.marks.contains(disk) || self.below.marked(disk))
    }
}
