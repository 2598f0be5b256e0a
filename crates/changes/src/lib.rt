// Actions that change the board, a function each, though some differ in a field alone: each contract names its action. 0101 and 0201 to 0405.
// They take the board as bytes and require that it is sound, and are no methods of `SoundBoard`, since between the writes of one change it is not.
// That a string is within its limit stays a clause too: with a type for it every contract would name the bytes inside.
#![tactic(auto)]

pub mod creations;
pub mod deletions;
mod rows;
pub mod updates;
