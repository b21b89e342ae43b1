// Every denial in its own words.
use denial::Denial;
use denial::fault::{NodeFault, Phase, RequestFault, ShelfFault};
use std::io;

// A medium fault at disk 1, row 2, met by node 3 in prepare on stripe 4.
fn example_fault() -> RequestFault {
    let shelf = ShelfFault {
        code: 2,
        disk: 1,
        row: 2,
    };
    RequestFault::from(NodeFault::from(shelf).at(3, Phase::Prepare)).on(4)
}

pub fn list(rt: &impl Print) -> anyhow::Result<()> {
    println!(rt; "\nThe denials.")?;
    let denials = [
        Denial::NotStarted,
        Denial::AlreadyStarted,
        Denial::ShelfTooSmall,
        Denial::ArrayLost,
        Denial::BadRange,
        Denial::BadLength,
        Denial::NoSuchDisk,
        Denial::WrongDiskState,
        Denial::StripeLocked,
        Denial::NoFreeSlot,
        Denial::WrongRequestState,
        Denial::PlanRefused { rule: 9 },
        Denial::Faulted(example_fault()),
        Denial::BadLayout,
        Denial::BadFaultLine,
        Denial::TooManyFaultLines,
    ];
    for denial in denials {
        println!(rt; "  {denial}")?;
    }
    Ok(())
}
