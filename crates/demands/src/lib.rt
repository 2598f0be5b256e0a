// The demands have no code: proofs/DemandTheorems states and proves them of what meets the contracts of `step` and `replay`, and proofs/CallTheorems
// of what meets those of `staff_board_step` and `staff_board_replay`.
#![tactic(auto)]
