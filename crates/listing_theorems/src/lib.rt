// What the calls of `listing_text` come to over the state that recovery left. See specs/ListingCalled.antt.
#![tactic(auto)]
