// Every image that is built attaches with grade 0 and holds what was given: the claim in specs/, its proof in proofs/.
#![tactic(auto)]
