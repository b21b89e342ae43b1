// Where a unit stands: a row of a disk holds one unit.

// A row of a disk.
#[derive(Clone, Copy, PartialEq, Eq, Debug)]
pub struct Place {
    pub disk: usize,
    pub row: usize,
}
