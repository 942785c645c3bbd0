// Demand 3: the claim about every list of calls on a host (specs/ states it, proofs/ proves it).
#![tactic(auto)]
