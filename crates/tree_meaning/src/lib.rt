// What the operations of `tree` mean: marking is `mark`, finding is `active`, a put appends. Laws alone. See specs/ and proofs/.
#![tactic(auto)]
