// Theorems on whole texts, as `pack` reads them and `list --numbers` prints them: specs/ and proofs/.
#![tactic(auto)]
