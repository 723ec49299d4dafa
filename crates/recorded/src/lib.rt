// What holds of recorded days, as statements in specs/ and theorems in proofs/; no code.
#![tactic(auto)]
