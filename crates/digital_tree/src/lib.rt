// A digital tree: a search goes left or right by the bits of a key. Definitions and laws alone, over any keys, IDs and links.
#![tactic(auto)]
