// Numbers, runs, string fields and records at places of a lent byte slice, and rows of bits.
#![tactic(auto)]

pub mod bits;
pub mod number;
pub mod range;
pub mod run;
pub mod string;
pub mod table;
