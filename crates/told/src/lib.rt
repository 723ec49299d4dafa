// What a planner may be told, the second half of demand 2, document 01's worked rows, and all demands at the edition, as statements in specs/
// and theorems in proofs/; no code.
#![tactic(auto)]
