// What the contracts of the code amount to: specs/ states it, and proofs/Proved.antt proves it all.
#![tactic(auto)]
