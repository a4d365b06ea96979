// The demands on one operation, as theorems about the definitions: proofs/. Over sequences: crate history.
#![tactic(auto)]
