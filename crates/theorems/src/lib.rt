// Theorems over the definitions of `meaning`: specs/ states them, a file for each, and proofs/Proved.antt proves them all.
#![tactic(auto)]
