// Document 01's marked cases P1 to P12, shown of the definitions: specs/Marked.antt.
#![tactic(auto)]
