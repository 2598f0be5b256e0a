// The model has no code: its definitions stand in specs/, their laws and theorems in proofs/.
#![tactic(auto)]
