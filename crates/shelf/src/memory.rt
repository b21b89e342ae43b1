// A shelf in memory.
ghost use Rattle.std.specs.Prelude.{◌≡◌, ◌+◌, ◌*◌, ◌<◌, ◌≤◌, length, vec_len};

use crate::extent::Extent;
use crate::{MOST_DISKS, Place, Shelf};
use denial::fault::ShelfFault;
use units::unit::UNIT;

// The most rows that a memory shelf takes.
const MOST_ROWS: usize = 4096;

// Disk after disk, and of each disk row after row: the place of disk d and row r is unit d × rows + r of the bytes.
#[derive(Drop)]
pub struct MemoryShelf {
    extent: Extent,
    bytes: Vec<u8>,
    ghost few: { extent.disks ≤ 32 },
    ghost short: { extent.rows ≤ 4096 },
    ghost whole: { extent.disks * extent.rows * 512 ≤ vec_len bytes },
}

impl MemoryShelf {
    ghost use Rattle.shelf.specs.Meaning.{Renewed, Stored, Within};
    ghost use Rattle.shelf.specs.Memory.{kept, new_memory, number_of, with_zeros, Zeroed};
    ghost use Rattle.units.specs.Units.{with_unit};

    // A shelf over these bytes; one with no disks where there are over 32 disks or 4,096 rows, or the bytes are not a unit for each place.
    // No `Result`, by a rule of the project: numbers that do not fit make a shelf that answers every access and renewal with code 1.
    pub fn new(disks: usize, rows: usize, bytes: Vec<u8>) -> MemoryShelf
        ensures meaning { kept result ≡ new_memory disks rows bytes.items }
        ensures bytes { result.bytes ≡ bytes }
    {
        let fits = disks <= MOST_DISKS && rows <= MOST_ROWS && bytes.len() == disks * rows * UNIT;
        let extent = if fits {
            Extent { disks, rows }
        } else {
            Extent { disks: 0, rows: 0 }
        };
        MemoryShelf { extent, bytes }
    }

    // The bytes given back, as the shelf holds them now. No `From`: std's own word for this, as at a `String`, says more.
    pub fn into_bytes(self) -> Vec<u8>
        ensures { result ≡ self.bytes }
    {
        self.bytes
    }

    // Where the bytes of a place in range begin.
    #[tactic(auto, using(crate::specs::Places::place_fits))]
    fn start(&self, place: Place) -> usize
        requires disk { place.disk < self.now.extent.disks }
        requires row { place.row < self.now.extent.rows }
        ensures at { result ≡ number_of self.now.extent.rows place * 512 }
        ensures fits { result + 512 ≤ vec_len self.now.bytes }
    {
        (place.disk * self.extent.rows + place.row) * UNIT
    }

    // Copies out the unit of a place in range.
    fn get(&self, place: Place, unit: &mut [u8])
        requires { Within self.now.extent.disks self.now.extent.rows place (length unit.old) }
        ensures { unit.new ≡ (kept self.now).bytes place }
    {
        let at = self.start(place);
        unit.copy_from_slice(&self.bytes[at..at + UNIT]);
    }

    // Puts another unit at a place in range.
    fn put(&mut self, place: Place, unit: &[u8])
        requires { Within self.old.extent.disks self.old.extent.rows place (length unit.now) }
        ensures stored { Stored (kept self.old) place unit.now (kept self.new) }
        ensures bytes { self.new.bytes.items
            ≡ with_unit self.old.bytes.items (number_of self.old.extent.rows place) unit.now }
    {
        let at = self.start(place);
        let held = &mut self.bytes[at..at + UNIT];
        held.copy_from_slice(unit);
    }

    // Puts zeros at every place of a disk in range.
    fn clear(&mut self, disk: usize)
        requires { disk < self.old.extent.disks }
        ensures renewed { Renewed (kept self.old) disk (kept self.new) }
        ensures zeroed { Zeroed (kept self.new) disk }
        ensures bytes { self.new.bytes.items
            ≡ with_zeros self.old.bytes.items (disk * self.old.extent.rows) self.old.extent.rows }
    {
        let at = disk * self.extent.rows * UNIT;
        let held = &mut self.bytes[at..at + self.extent.rows * UNIT];
        held.fill(0);
    }
}

impl Shelf for MemoryShelf {
    ghost use Rattle.std.proofs.Common.{arith};
    ghost use Rattle.shelf.specs.Memory.{kept, Reading, Renewing, Writing};
    ghost use Rattle.shelf.specs.Places.{place_unit};

    ghost meaning = { kept };

    ghost reading = { Reading };

    ghost writing = { Writing };

    ghost renewing = { Renewing };

    ghost lawful = { λ s.
        let whole : s.extent.disks * s.extent.rows * 512 ≤ length s.bytes.items = omega arith in
        record { few = s.few; units = place_unit s.extent.disks s.extent.rows s.bytes.items whole } };

    fn read(&mut self, place: Place, buffer: &mut [u8]) -> Result<(), ShelfFault> {
        self.extent.check(place, buffer.len())?;
        self.get(place, buffer);
        Ok(())
    }

    fn write(&mut self, place: Place, bytes: &[u8]) -> Result<(), ShelfFault> {
        self.extent.check(place, bytes.len())?;
        self.put(place, bytes);
        Ok(())
    }

    fn renew(&mut self, disk: usize) -> Result<(), ShelfFault> {
        self.extent.check_disk(disk)?;
        self.clear(disk);
        Ok(())
    }

    fn disks(&self) -> usize {
        self.extent.disks
    }

    fn rows(&self) -> usize {
        self.extent.rows
    }

    fn marked(&self, _disk: usize) -> bool {
        false
    }
}
