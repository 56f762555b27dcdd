// What the store means: definitions alone, which every layer above cites. See specs/.
#![tactic(auto)]
