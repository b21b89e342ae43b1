// Mirrored pairs: each stripe is a unit and its copy, on the two disks of a pair.
ghost use Rattle.std.specs.Prelude.{◌≡◌, ◌/◌, ◌%◌, ◌<◌, ◌≤◌};
ghost use Rattle.layout.specs.Grids.{HasSizes};
ghost use Rattle.layout.specs.Shape.{Made};
ghost use Rattle.layout.specs.Tables.{pair, pair_numbers};
ghost use Rattle.layout.specs.Pairs.{pair_law};

use super::grid::Grid;
use super::{Layout, Member, Place};
use denial::Denial;

#[derive(Clone, Copy)]
pub struct Pair {
    grid: Grid<2, 16, 1>,
    ghost even: { grid.disks % 2 ≡ 0 },
}

impl Pair {
    // An even number of disks from 2 to 16, and 1 to 4,096 rows.
    pub fn new(disks: usize, rows: usize) -> Result<Pair, Denial>
        ensures { Made (pair_numbers disks rows)
            (λ l. HasSizes disks rows l.grid) result }
    {
        if disks % 2 != 0 {
            return Err(Denial::BadLayout);
        }
        Ok(Pair {
            grid: Grid::new(disks, rows)?,
        })
    }

    // How many pairs the disks make.
    fn pairs(&self) -> usize
        ensures { result ≡ self.now.grid.disks / 2 }
    {
        self.grid.disks / 2
    }
}

impl Layout for Pair {
    ghost shape = { λ l. pair l.grid.disks l.grid.rows };

    ghost placing = { λ l. let g = l.grid in
        pair_law g.disks g.rows l.even g.some_disks g.few_disks g.some_rows g.few_rows };

    fn disks(&self) -> usize {
        self.grid.disks
    }

    fn rows(&self) -> usize {
        self.grid.rows
    }

    fn stripes(&self) -> usize {
        self.pairs() * self.grid.rows
    }

    fn width(&self) -> usize {
        2
    }

    fn place(&self, Member { stripe, index }: Member) -> Option<Place> {
        if stripe >= self.stripes() || index >= self.width() {
            return None;
        }
        let pairs = self.pairs();
        Some(Place {
            disk: 2 * (stripe % pairs) + index,
            row: stripe / pairs,
        })
    }

    fn owner(&self, Place { disk, row }: Place) -> Option<Member> {
        if disk >= self.grid.disks || row >= self.grid.rows {
            return None;
        }
        let pairs = self.pairs();
        Some(Member {
            stripe: row * pairs + disk / 2,
            index: disk % 2,
        })
    }
}
