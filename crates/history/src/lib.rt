// What calls answer is what the whole history says: see specs/ and proofs/.
#![tactic(auto)]
