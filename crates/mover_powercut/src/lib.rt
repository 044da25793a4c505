// No power cut loses a block: specs/ has the calls, the place book, the premise and the claim, proofs/ the theorem.
// There is no code.
#![tactic(auto)]
