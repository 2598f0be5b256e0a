// Confidentiality has no code: its definitions and statements stand in specs/, their laws and theorems in proofs/.
#![tactic(auto)]
