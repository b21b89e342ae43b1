// A script of faults: which access of a disk is to fault, and why.
ghost use Rattle.std.specs.Prelude.{◌≡◌, ◌≤◌, length, ok_or};
ghost use Rattle.denial.specs.declared.Denial.TheVariants.{BadFaultLine};

use crate::MOST_DISKS;
use arrayvec::ArrayVec;
use denial::Denial;
use units::set::Set;

mod history;

pub use history::faults_by_history;

// How many lines a script has room for.
pub const MOST_LINES: usize = 32;

// The last access that a line may name.
const LAST_ACCESS: u32 = 2_147_483_647;

// Why an access faults: the medium cannot be read or written there, the disk is gone, or it answers too late.
#[derive(Clone, Copy, PartialEq, Eq, Debug, Default)]
pub enum Cause {
    #[default]
    Medium,
    Gone,
    Late,
}

impl Cause {
    ghost use Rattle.shelf.specs.Script.{code};

    // The code of a fault with this cause, which is also the cause's number in a line. No `From`: `code` says which number it is.
    // A match: numbers at the variants would change what a cast of a cause gives.
    pub fn code(self) -> u8
        ensures { result ≡ code self }
    {
        match self {
            Cause::Medium => 2,
            Cause::Gone => 3,
            Cause::Late => 4,
        }
    }
}

// The cause with this number.
impl TryFrom<usize> for Cause {
    ghost use Rattle.shelf.specs.Script.{cause_of};

    type Error = Denial;

    ghost try_from_gives = { λ number r. r ≡ ok_or (cause_of number) BadFaultLine };

    fn try_from(number: usize) -> Result<Cause, Denial> {
        match number {
            2 => Ok(Cause::Medium),
            3 => Ok(Cause::Gone),
            4 => Ok(Cause::Late),
            _ => Err(Denial::BadFaultLine),
        }
    }
}

// The disk's `at`th read or write faults with this cause. By default a line is for access 0, which no disk has: it fills the room that
// a script has left.
#[derive(Clone, Copy, Default)]
pub struct FaultLine {
    pub disk: usize,
    pub at: u32,
    pub cause: Cause,
}

impl FaultLine {
    ghost use Rattle.shelf.specs.Script.{first_cause, line_of, matches};

    // The line of these numbers: a disk from 0 to 31, an access from 1 to 2,147,483,647, a cause from 2 to 4.
    // They are numbers of any size, the cause too, by a rule of the project: a script comes from text or from a host.
    pub fn new(disk: usize, at: usize, cause: usize) -> Result<FaultLine, Denial>
        ensures { result ≡ line_of disk at cause }
    {
        let at = u32::try_from(at).map_err(|_| Denial::BadFaultLine)?;
        if disk >= MOST_DISKS || !(1..=LAST_ACCESS).contains(&at) {
            return Err(Denial::BadFaultLine);
        }
        let cause = Cause::try_from(cause)?;
        Ok(FaultLine { disk, at, cause })
    }

    // Whether the line is for this access of this disk.
    fn matches(&self, disk: usize, access: u32) -> bool
        ensures { result ≡ matches self.now disk access }
    {
        self.disk == disk && self.at == access
    }

    // The cause of the first line for this access of this disk.
    fn first_cause(lines: &[FaultLine], disk: usize, access: u32) -> Option<Cause>
        ensures { result ≡ first_cause lines.now disk access }
    {
        lines
            .iter()
            .find(|line| line.matches(disk, access))
            .map(|line| line.cause)
    }
}

// Up to 32 lines, how many reads and writes each disk has had, and which disks are gone.
// Counts and gone disks are two fields, by a rule of the project: a set of disks is held in one number.
#[derive(Drop)]
pub struct FaultScript {
    lines: ArrayVec<FaultLine, MOST_LINES>,
    counts: [u32; MOST_DISKS],
    gone: Set,
    ghost few: { length lines.items ≤ 32 },
    ghost all: { length counts ≡ 32 },
}

impl FaultScript {
    ghost use Rattle.shelf.specs.Script.{Adds, BringsBack, count, Counts, due, Fresh};

    // A script with no line, that has counted nothing.
    pub fn new() -> FaultScript
        ensures { Fresh result }
    {
        FaultScript {
            lines: ArrayVec::new(),
            counts: [0; MOST_DISKS],
            gone: Set::EMPTY,
        }
    }

    // One line more, behind the others; numbers of any size, as in a line.
    pub fn add(&mut self, disk: usize, at: usize, cause: usize) -> Result<(), Denial>
        ensures { Adds self.old disk at cause result self.new }
    {
        let line = FaultLine::new(disk, at, cause)?;
        self.lines
            .try_push(line)
            .map_err(|_| Denial::TooManyFaultLines)
    }

    // How many reads and writes of the disk were counted.
    pub fn count(&self, disk: usize) -> u32
        ensures { result ≡ count self.now disk }
    {
        self.counts.get(disk).copied().unwrap_or(0)
    }

    // Counts a read or write of the disk, and tells the fault that is due.
    pub fn access(&mut self, disk: usize) -> Option<Cause>
        ensures answer { result ≡ due self.old disk }
        ensures counts { Counts self.old disk self.new }
    {
        if disk >= MOST_DISKS {
            return None;
        }
        // By index: with `get_mut` and `?` five goals stayed open.
        let count = self.counts[disk].saturating_add(1);
        self.counts[disk] = count;
        let due = if self.gone.contains(disk) {
            Some(Cause::Gone)
        } else {
            FaultLine::first_cause(&self.lines, disk, count)
        };
        if due == Some(Cause::Gone) {
            self.gone.insert(disk);
        }
        due
    }

    // The disk is there again.
    pub fn renew(&mut self, disk: usize)
        ensures { BringsBack self.old disk self.new }
    {
        self.gone.remove(disk);
    }
}
