// Laws on booleans and on counting that the kit has not; no code. They stand in proofs/.
#![tactic(auto)]
