// Left-symmetric RAID-5: one check unit in each row, which moves one disk to the left with each stripe.
ghost use Rattle.std.specs.Prelude.{◌≡◌, ◌-◌, ◌%◌, ◌≤◌};
ghost use Rattle.layout.specs.Grids.{HasSizes};
ghost use Rattle.layout.specs.Shape.{Made};
ghost use Rattle.layout.specs.Tables.{check_disk, raid5, raid5_numbers};
ghost use Rattle.layout.specs.Raid.{raid5_law};

use super::grid::Grid;
use super::{Layout, Member, Place};
use denial::Denial;

#[derive(Clone, Copy)]
pub struct Raid5 {
    grid: Grid<3, 8, 1>,
}

impl Raid5 {
    // 3 to 8 disks and 1 to 4,096 rows.
    pub fn new(disks: usize, rows: usize) -> Result<Raid5, Denial>
        ensures { Made (raid5_numbers disks rows)
            (λ l. HasSizes disks rows l.grid) result }
    {
        Ok(Raid5 {
            grid: Grid::new(disks, rows)?,
        })
    }

    // The disk of the stripe's check.
    fn check_disk(&self, stripe: usize) -> usize
        ensures { result ≡ check_disk self.now.grid.disks stripe }
    {
        self.grid.disks - 1 - stripe % self.grid.disks
    }
}

impl Layout for Raid5 {
    ghost shape = { λ l. raid5 l.grid.disks l.grid.rows };

    ghost placing = { λ l. let g = l.grid in
        raid5_law g.disks g.rows g.some_disks g.few_disks g.some_rows g.few_rows };

    fn disks(&self) -> usize {
        self.grid.disks
    }

    fn rows(&self) -> usize {
        self.grid.rows
    }

    fn stripes(&self) -> usize {
        self.grid.rows
    }

    fn width(&self) -> usize {
        self.grid.disks
    }

    fn place(&self, Member { stripe, index }: Member) -> Option<Place> {
        if stripe >= self.grid.rows || index >= self.grid.disks {
            return None;
        }
        let check = self.check_disk(stripe);
        let disk = if index == self.grid.disks - 1 {
            check
        } else {
            (check + 1 + index) % self.grid.disks
        };
        Some(Place { disk, row: stripe })
    }

    fn owner(&self, Place { disk, row }: Place) -> Option<Member> {
        if disk >= self.grid.disks || row >= self.grid.rows {
            return None;
        }
        let check = self.check_disk(row);
        let index = if disk == check {
            self.grid.disks - 1
        } else {
            (disk + self.grid.disks - (check + 1)) % self.grid.disks
        };
        Some(Member { stripe: row, index })
    }
}
