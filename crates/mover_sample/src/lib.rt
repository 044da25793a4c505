// 01's bench move, computed from the definitions: proofs/Bench.antt. A crate of its own because this takes seconds.
#![tactic(auto)]
