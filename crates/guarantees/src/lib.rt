// The promises over all three layers: no code, the statements stand in specs/ and their proofs in proofs/.
#![tactic(auto)]
