// The disks and rows of a layout, within the bounds that it sets.
ghost use Rattle.std.specs.Prelude.{◌≡◌, ◌≤◌, ◌&&◌};

use denial::Denial;

// From `LEAST_DISKS` to `MOST_DISKS` disks, and from `LEAST_ROWS` to 4,096 rows.
#[derive(Clone, Copy)]
pub struct Grid<const LEAST_DISKS: usize, const MOST_DISKS: usize, const LEAST_ROWS: usize> {
    pub disks: usize,
    pub rows: usize,
    ghost some_disks: { LEAST_DISKS ≤ disks },
    ghost few_disks: { disks ≤ MOST_DISKS },
    ghost some_rows: { LEAST_ROWS ≤ rows },
    ghost few_rows: { rows ≤ 4096 },
}

impl<const LEAST_DISKS: usize, const MOST_DISKS: usize, const LEAST_ROWS: usize> Grid<
    LEAST_DISKS,
    MOST_DISKS,
    LEAST_ROWS,
> {
    ghost use Rattle.layout.specs.Grids.{HasSizes};
    ghost use Rattle.layout.specs.Shape.{Made};
    ghost use Rattle.layout.specs.Tables.{in_range};

    pub fn new(disks: usize, rows: usize) -> Result<Self, Denial>
        ensures { Made (in_range LEAST_DISKS MOST_DISKS disks && in_range LEAST_ROWS 4096 rows)
            (HasSizes disks rows) result }
    {
        if (LEAST_DISKS..=MOST_DISKS).contains(&disks) && (LEAST_ROWS..=4096).contains(&rows) {
            Ok(Grid { disks, rows })
        } else {
            Err(Denial::BadLayout)
        }
    }
}
