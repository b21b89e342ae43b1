// How far a shelf reaches, and the answer to what lies beyond.
ghost use Rattle.std.specs.Prelude.{◌≡◌, ◌<◌, ◌↔◌, IsOk, OnErr};
ghost use Rattle.shelf.specs.Meaning.{first_of, out_of_range, Within};

use crate::{Place, fault_at};
use denial::fault::ShelfFault;
use units::unit::UNIT;

// How many disks a shelf has, and how many rows each of them.
#[derive(Clone, Copy)]
pub struct Extent {
    pub disks: usize,
    pub rows: usize,
}

impl Extent {
    // Fault 1 unless the place is one of the shelf's and `len` bytes are a unit.
    pub fn check(self, place: Place, len: usize) -> Result<(), ShelfFault>
        ensures within { IsOk result ↔ Within self.disks self.rows place len }
        ensures outside { OnErr result (result ≡ out_of_range place) }
    {
        if place.disk < self.disks && place.row < self.rows && len == UNIT {
            Ok(())
        } else {
            Err(fault_at(1, place))
        }
    }

    // Fault 1 unless the disk is one of the shelf's.
    pub fn check_disk(self, disk: usize) -> Result<(), ShelfFault>
        ensures within { IsOk result ↔ (disk < self.disks) }
        ensures outside { OnErr result (result ≡ out_of_range (first_of disk)) }
    {
        if disk < self.disks {
            Ok(())
        } else {
            Err(fault_at(1, Place { disk, row: 0 }))
        }
    }
}
