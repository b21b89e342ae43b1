// Units of 512 bytes with their sum, places, and sets of small numbers.
#![tactic(auto)]

pub mod place;
pub mod set;
pub mod unit;
