// Theorems on the exported functions: what a host sees of one call, and of a sequence of calls. specs/ and proofs/.
#![tactic(auto)]
