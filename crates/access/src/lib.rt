// What a sound board says: its counts and fields, where numbers stand in its tables, and the rows 7 to 10 of the table of refusals that
// several kinds share.
#![tactic(auto)]

pub mod lookups;
pub mod records;
pub mod refusals;
pub mod sound_board;
pub mod tables;
