// No code stands here: the claims are in specs/, their proofs in proofs/.
#![tactic(auto)]
