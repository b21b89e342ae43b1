// A unit is 512 bytes; the sum of units is their bytewise exclusive or.
ghost use Rattle.std.specs.Prelude.{◌≡◌, ◌+◌, ◌≤◌, length};
ghost use Rattle.units.specs.Sums.{Checks, Rebuilds, SumLaws, units};
ghost use Rattle.units.specs.Units.{IsUnit, part_at, plus, start_of, sum_answer, with_part, with_sum};

use std::error::Error;
use std::fmt;

// How many bytes a unit has.
pub const UNIT: usize = 512;

pub type Unit = [u8; UNIT];

// A pool that was asked for this unit does not have it.
#[derive(Clone, Copy, PartialEq, Eq, Debug)]
pub struct NoSuchUnit {
    pub unit: usize,
}

impl fmt::Display for NoSuchUnit {
    fn fmt<W: fmt::Write>(&self, f: &mut fmt::Formatter<W>) -> fmt::Result {
        write!(f, "the pool has no unit {}", self.unit)
    }
}

impl Error for NoSuchUnit {}

// Adds `source` to `target`.
pub fn add(target: &mut Unit, source: &Unit)
    ensures { target.new ≡ plus target.old source.now }
{
    add_bytes(target, source);
}

// Adds the bytes of one unit to those of another.
fn add_bytes(target: &mut [u8], source: &[u8])
    requires target { length target.old ≡ 512 }
    requires source { length source.now ≡ 512 }
    ensures { target.new ≡ plus target.old source.now }
{
    // By index, by a rule of the project: a sum goes over the bytes of a unit by their number.
    for i in 0..UNIT {
        target[i] ^= source[i];
    }
}

// Adds a unit to the 512 bytes of the pool from byte `at` on.
#[tactic(auto, using(crate::proofs::Pools::part_summed))]
fn add_at(pool: &mut [u8], at: usize, source: &Unit)
    requires { at + 512 ≤ length pool.old }
    ensures { pool.new ≡ with_part pool.old at (plus (part_at pool.old at) source.now) }
{
    add_bytes(&mut pool[at..at + UNIT], source);
}

// Where a unit of the pool begins.
fn start(pool: &[u8], unit: usize) -> Result<usize, NoSuchUnit>
    ensures { result ≡ start_of pool.now unit }
{
    if unit < pool.len() / UNIT {
        Ok(unit * UNIT)
    } else {
        Err(NoSuchUnit { unit })
    }
}

// Adds unit `from` of the pool to its unit `to`; where the pool has not both, nothing changes.
pub fn add_within(pool: &mut [u8], to: usize, from: usize) -> Result<(), NoSuchUnit>
    ensures after { pool.new ≡ with_sum pool.old to from }
    ensures answer { result ≡ sum_answer pool.old to from }
{
    let to = start(pool, to)?;
    let from = start(pool, from)?;
    // A unit for working is zeroed first, by a rule of the project.
    let mut source = [0; UNIT];
    source.copy_from_slice(&pool[from..from + UNIT]);
    add_at(pool, to, &source);
    Ok(())
}

// The laws of the sum of units; a stripe is sound exactly when its check is the sum of its data, and then
// each member is the sum of the others.
#[tactic(auto, using(crate::proofs::Sums::unit_laws, crate::proofs::Sums::checks, crate::proofs::Sums::rebuilds))]
pub fn sum_laws()
    ensures laws { SumLaws units IsUnit }
    ensures checks { Checks }
    ensures rebuilds { Rebuilds }
{}
