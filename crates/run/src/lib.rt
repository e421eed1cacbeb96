// The whole run and the agreement theorem. There is no code here: the definitions stand in specs/, the proof in proofs/.
#![tactic(auto)]
