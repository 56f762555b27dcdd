// Theorems over the definitions of `graph`, and what its contracts amount to. See specs/.
#![tactic(auto)]
