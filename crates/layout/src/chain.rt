// Chained declustering: each stripe is a unit and its copy, on two neighbouring disks of a ring.
ghost use Rattle.std.specs.Prelude.{◌≡◌, ◌/◌, ◌≤◌};
ghost use Rattle.layout.specs.Grids.{HasSizes};
ghost use Rattle.layout.specs.Shape.{Made};
ghost use Rattle.layout.specs.Tables.{chain, chain_numbers};
ghost use Rattle.layout.specs.Chains.{chain_law};

use super::grid::Grid;
use super::{Layout, Member, Place};
use denial::Denial;

#[derive(Clone, Copy)]
pub struct Chain {
    grid: Grid<2, 16, 2>,
}

impl Chain {
    // 2 to 16 disks and 2 to 4,096 rows.
    pub fn new(disks: usize, rows: usize) -> Result<Chain, Denial>
        ensures { Made (chain_numbers disks rows)
            (λ l. HasSizes disks rows l.grid) result }
    {
        Ok(Chain {
            grid: Grid::new(disks, rows)?,
        })
    }

    // How many rows hold originals, and how many copies.
    fn half(&self) -> usize
        ensures { result ≡ self.now.grid.rows / 2 }
    {
        self.grid.rows / 2
    }
}

impl Layout for Chain {
    ghost shape = { λ l. chain l.grid.disks l.grid.rows };

    ghost placing = { λ l. let g = l.grid in
        chain_law g.disks g.rows g.some_disks g.few_disks g.some_rows g.few_rows };

    fn disks(&self) -> usize {
        self.grid.disks
    }

    fn rows(&self) -> usize {
        self.grid.rows
    }

    fn stripes(&self) -> usize {
        self.grid.disks * self.half()
    }

    fn width(&self) -> usize {
        2
    }

    fn place(&self, Member { stripe, index }: Member) -> Option<Place> {
        if stripe >= self.stripes() || index >= self.width() {
            return None;
        }
        let row = stripe / self.grid.disks;
        if index == 0 {
            Some(Place {
                disk: stripe % self.grid.disks,
                row,
            })
        } else {
            Some(Place {
                disk: (stripe + 1) % self.grid.disks,
                row: self.half() + row,
            })
        }
    }

    fn owner(&self, Place { disk, row }: Place) -> Option<Member> {
        let half = self.half();
        if disk >= self.grid.disks || row >= half + half {
            return None;
        }
        if row < half {
            Some(Member {
                stripe: row * self.grid.disks + disk,
                index: 0,
            })
        } else {
            let before = (disk + self.grid.disks - 1) % self.grid.disks;
            Some(Member {
                stripe: (row - half) * self.grid.disks + before,
                index: 1,
            })
        }
    }
}
