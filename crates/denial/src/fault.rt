// A shelf's fault, carried whole in a node fault, and that in a request fault.
ghost use Rattle.std.specs.Prelude.{◌≡◌};
ghost use Rattle.denial.specs.Faults.{at_node, on_stripe, phase_number};
ghost use Rattle.denial.specs.declared.fault.Phase.TheVariants.{Unset};

use std::error::Error;
use std::fmt;

// What a shelf answers in place of an access: 1 for a wrong place or length, 2 to 8 for a disk that failed it.
// Code 9 is the array's own: a disk that was found marked at start.
// By a rule of the project the code stays a number, which suppliers choose among 2 to 8, and disk and row stand apart: hosts read
// all three, and of a renewal the disk alone.
#[derive(Clone, Copy, PartialEq, Eq, Debug)]
pub struct ShelfFault {
    pub code: u8,
    pub disk: usize,
    pub row: usize,
}

// What the array was doing: running the plan up to its commit (also for a read), its writes, a renewal, or the start.
// `Unset` is no `None`, by a rule of the project: a disk's record may be all zeros, and 0 is a phase that hosts read.
#[derive(Clone, Copy, PartialEq, Eq, Debug)]
pub enum Phase {
    Unset = 0,
    Prepare = 1,
    Settle = 2,
    Renewal = 3,
    Start = 4,
}

impl Phase {
    // No `From`: a bare number would not say of what it is the number.
    pub fn number(self) -> u8
        ensures { result ≡ phase_number self }
    {
        self as u8
    }
}

// A shelf fault with the plan's node that met it.
#[derive(Clone, Copy, PartialEq, Eq, Debug)]
pub struct NodeFault {
    pub node: usize,
    pub phase: Phase,
    pub fault: ShelfFault,
}

impl NodeFault {
    // The same shelf fault, at this node and in this phase.
    pub fn at(self, node: usize, phase: Phase) -> NodeFault
        ensures { result ≡ at_node node phase self.fault }
    {
        NodeFault {
            node,
            phase,
            fault: self.fault,
        }
    }
}

// A node fault with the stripe of the request that met it.
#[derive(Clone, Copy, PartialEq, Eq, Debug)]
pub struct RequestFault {
    pub stripe: usize,
    pub fault: NodeFault,
}

impl RequestFault {
    // The same node fault, on this stripe.
    pub fn on(self, stripe: usize) -> RequestFault
        ensures { result ≡ on_stripe stripe self.fault }
    {
        RequestFault {
            stripe,
            fault: self.fault,
        }
    }
}

// Node 0 and no phase until `at` says them: zeros in a record are a rule of the project.
impl From<ShelfFault> for NodeFault {
    ghost from_gives = { λ f r. r ≡ at_node 0 Unset f };

    fn from(fault: ShelfFault) -> NodeFault {
        NodeFault {
            node: 0,
            phase: Phase::Unset,
            fault,
        }
    }
}

// Stripe 0 until `on` says it: zeros in a record are a rule of the project.
impl From<NodeFault> for RequestFault {
    ghost from_gives = { λ f r. r ≡ on_stripe 0 f };

    fn from(fault: NodeFault) -> RequestFault {
        RequestFault { stripe: 0, fault }
    }
}

impl fmt::Display for ShelfFault {
    fn fmt<W: fmt::Write>(&self, f: &mut fmt::Formatter<W>) -> fmt::Result {
        write!(
            f,
            "fault {} at disk {}, row {}",
            self.code, self.disk, self.row
        )
    }
}

impl Error for ShelfFault {}

impl fmt::Display for Phase {
    fn fmt<W: fmt::Write>(&self, f: &mut fmt::Formatter<W>) -> fmt::Result {
        f.write_str(match self {
            Phase::Unset => "no phase",
            Phase::Prepare => "prepare",
            Phase::Settle => "settle",
            Phase::Renewal => "renewal",
            Phase::Start => "start",
        })
    }
}

impl fmt::Display for NodeFault {
    fn fmt<W: fmt::Write>(&self, f: &mut fmt::Formatter<W>) -> fmt::Result {
        write!(
            f,
            "{}, met by node {} in {}",
            self.fault, self.node, self.phase
        )
    }
}

impl fmt::Display for RequestFault {
    fn fmt<W: fmt::Write>(&self, f: &mut fmt::Formatter<W>) -> fmt::Result {
        write!(f, "{} on stripe {}", self.fault, self.stripe)
    }
}
