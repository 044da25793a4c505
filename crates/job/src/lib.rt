// What a job is that writes an image step by step (a move is the first), and what its steps leave when the power fails:
// the definitions and laws that are the same for every job. There is no code.
#![tactic(auto)]
