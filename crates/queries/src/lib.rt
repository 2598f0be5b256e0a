// Actions that answer from the board, a function each, though some differ in a field alone: each contract names its action. 0501 to 0606. Each returns
// how long the body of its answer is, or its refusal. The buffer is a slice with a clause on its length: a struct round a lent buffer would have to say
// in each contract that it is still the same buffer.
#![tactic(auto)]

mod answers;
pub mod listings;
pub mod readings;

// The bytes of a frame before its body.
pub const HEAD_SIZE: usize = 4;
