// The units of a layout's places, held in memory.
use layout::{Layout, Member, Place};
use std::alloc::{AllocError, Global};
use units::unit;
use units::unit::{UNIT, Unit};

#[derive(Drop)]
pub struct Volume<L> {
    layout: L,
    units: Vec<Unit>,
}

impl<L: Layout + Copy + Drop> Volume<L> {
    // All zeros, which is sound: the check of zeros is zeros.
    pub fn new(heap: Global, layout: L) -> Result<Volume<L>, AllocError> {
        let places = layout.disks().saturating_mul(layout.rows());
        let units = vec![in heap; [0u8; UNIT]; places]?;
        Ok(Volume { layout, units })
    }

    pub fn layout(&self) -> L {
        self.layout
    }

    // Places are held disk by disk.
    fn number(&self, place: Place) -> usize {
        place
            .disk
            .saturating_mul(self.layout.rows())
            .saturating_add(place.row)
    }

    // The unit of a member, or none out of range.
    pub fn read(&self, member: Member) -> Option<&Unit> {
        let place = self.layout.place(member)?;
        self.units.get(self.number(place))
    }

    fn put(&mut self, place: Place, unit: Unit) {
        let number = self.number(place);
        if let Some(there) = self.units.get_mut(number) {
            *there = unit;
        }
    }

    pub fn write(&mut self, member: Member, unit: Unit) {
        if let Some(place) = self.layout.place(member) {
            self.put(place, unit);
        }
    }

    // The sum of all other members of the stripe.
    pub fn sum_of_others(&self, member: Member) -> Unit {
        let mut sum = [0; UNIT];
        for index in (0..self.layout.width()).filter(|&index| index != member.index) {
            if let Some(unit) = self.read(Member { index, ..member }) {
                unit::add(&mut sum, unit);
            }
        }
        sum
    }

    // A new disk in place of this one holds nothing of what was there.
    pub fn lose(&mut self, disk: usize) {
        for row in 0..self.layout.rows() {
            self.put(Place { disk, row }, [0xee; UNIT]);
        }
    }
}
