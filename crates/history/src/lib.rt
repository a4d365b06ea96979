// Theorems over sequences of operations: specs/ and proofs/.
#![tactic(auto)]
