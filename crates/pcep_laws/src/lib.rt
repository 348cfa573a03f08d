// What follows from the definitions of PCEP messages alone. No code: the laws stand in proofs/.
#![tactic(auto)]
