// Damaged boards have no code: proofs/DamagedBoards has, for each clause of soundness, boards that break it and no other. They are no part of `model`
// since their computation takes longer than all its proofs, and each must-fail edit of `model` would repeat it.
#![tactic(auto)]
