// Denials: what a call answers when it refuses, each with its number.
#![tactic(auto)]

ghost use Rattle.std.specs.Prelude.{◌≡◌};
ghost use Rattle.denial.specs.Numbers.{number};
ghost use Rattle.denial.specs.declared.Denial.TheVariants.{Faulted};

use fault::RequestFault;
use std::error::Error;
use std::fmt;

pub mod fault;

// One variant for each number of the table in docs/denials.md, which says when each is given and what it leaves.
#[derive(Clone, Copy, PartialEq, Eq, Debug)]
pub enum Denial {
    NotStarted,
    AlreadyStarted,
    ShelfTooSmall,
    ArrayLost,
    BadRange,
    BadLength,
    NoSuchDisk,
    WrongDiskState,
    StripeLocked,
    NoFreeSlot,
    WrongRequestState,
    // The rule stays a number by a rule of the project: hosts read which of the nine was broken first.
    PlanRefused { rule: u8 },
    Faulted(RequestFault),
    BadLayout,
    BadFaultLine,
    TooManyFaultLines,
}

impl Denial {
    // A match, since a variant that carries something takes no number of its own; no `From`, since a bare number would not say of what it is the number.
    pub fn number(&self) -> u8
        ensures { result ≡ number self.now }
    {
        match self {
            Denial::NotStarted => 1,
            Denial::AlreadyStarted => 2,
            Denial::ShelfTooSmall => 3,
            Denial::ArrayLost => 4,
            Denial::BadRange => 5,
            Denial::BadLength => 6,
            Denial::NoSuchDisk => 7,
            Denial::WrongDiskState => 8,
            Denial::StripeLocked => 9,
            Denial::NoFreeSlot => 10,
            Denial::WrongRequestState => 11,
            Denial::PlanRefused { .. } => 12,
            Denial::Faulted(_) => 13,
            Denial::BadLayout => 14,
            Denial::BadFaultLine => 15,
            Denial::TooManyFaultLines => 16,
        }
    }

    // What it means, in words; a refused plan's rule and a fault follow.
    fn meaning(&self) -> &'static str {
        match self {
            Denial::NotStarted => "the array has not been started",
            Denial::AlreadyStarted => "the array was started before",
            Denial::ShelfTooSmall => "the shelf has fewer disks or rows than the layout",
            Denial::ArrayLost => "the array is lost: some stripe has two or more missing members",
            Denial::BadRange =>
                "the numbers name no units of one stripe, or no request that a plan can be checked for",
            Denial::BadLength => "the bytes are not 512 for each unit",
            Denial::NoSuchDisk => "the array has no such disk",
            Denial::WrongDiskState => "the disk is not in a state for this",
            Denial::StripeLocked => "another request holds the stripe",
            Denial::NoFreeSlot => "all request slots are taken",
            Denial::WrongRequestState => "the slot is not in the state of this request",
            Denial::PlanRefused { .. } => "the plan breaks rule",
            Denial::Faulted(_) => "a disk was failed by",
            Denial::BadLayout => "the layout does not come in these numbers",
            Denial::BadFaultLine => "the fault line is out of range",
            Denial::TooManyFaultLines => "the fault script is full",
        }
    }
}

impl From<RequestFault> for Denial {
    ghost from_gives = { λ f r. r ≡ Faulted f };

    fn from(fault: RequestFault) -> Denial {
        Denial::Faulted(fault)
    }
}

impl fmt::Display for Denial {
    fn fmt<W: fmt::Write>(&self, f: &mut fmt::Formatter<W>) -> fmt::Result {
        write!(f, "denial {}: {}", self.number(), self.meaning())?;
        match self {
            Denial::PlanRefused { rule } => write!(f, " {rule}"),
            Denial::Faulted(fault) => write!(f, " {fault}"),
            _ => Ok(()),
        }
    }
}

impl Error for Denial {}
