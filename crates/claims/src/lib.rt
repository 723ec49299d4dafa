// Demand 3, and the first half of demand 2, as statements in specs/ and theorems in proofs/; no code.
#![tactic(auto)]
