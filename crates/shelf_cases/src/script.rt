// Lines of a script of faults: which numbers are taken, and how many lines.
use denial::Denial;
use shelf::script::{Cause, FaultScript};
use std::fmt;

// What came of a line.
#[derive(Clone, Copy)]
struct Added(Result<(), Denial>);

impl fmt::Display for Added {
    fn fmt<W: fmt::Write>(&self, f: &mut fmt::Formatter<W>) -> fmt::Result {
        match self.0 {
            Ok(()) => write!(f, "taken"),
            Err(denial) => write!(f, "{denial}"),
        }
    }
}

// Disk, access and cause: numbers, as a script is made from, since some name no disk, no access or no cause.
const LINES: [(usize, usize, usize); 14] = [
    (0, 1, 2),
    (31, 1, 2),
    (32, 1, 2),
    (18446744073709551615, 1, 2),
    (0, 0, 2),
    (0, 2147483647, 2),
    (0, 2147483648, 2),
    (0, 4294967297, 2),
    (0, 1, 3),
    (0, 1, 4),
    (0, 1, 0),
    (0, 1, 1),
    (0, 1, 5),
    (0, 1, 258),
];

pub fn edges(rt: &impl Print) -> anyhow::Result<()> {
    println!(rt; "\nLines of a script: disk, access, cause.")?;
    for (disk, at, cause) in LINES {
        let mut script = FaultScript::new();
        println!(rt;
            "  {disk} {at} {cause}: {}",
            Added(script.add(disk, at, cause))
        )?;
    }
    Ok(())
}

pub fn room(rt: &impl Print) -> anyhow::Result<()> {
    println!(rt; "\nRoom for 32 lines; a bad line is denied as such also where there is no room.")?;
    let mut script = FaultScript::new();
    for line in 1..=34usize {
        let added = Added(script.add(5, line, 2));
        if !(2..=31).contains(&line) {
            println!(rt; "  line {line}: {added}")?;
        }
    }
    println!(rt; "  a bad line then: {}", Added(script.add(32, 1, 2)))?;
    println!(rt;
        "  then an access of disk 5: {:?}, of disk 6: {:?}, of disk 32: {:?}",
        script.access(5),
        script.access(6),
        script.access(32)
    )?;
    let counts = [
        script.count(5),
        script.count(6),
        script.count(32),
        script.count(0),
    ];
    println!(rt; "  counted of disks 5, 6, 32 and 0: {counts:?}")?;
    Ok(())
}
