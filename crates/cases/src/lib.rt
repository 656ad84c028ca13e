// The worked cases of document 01, in specs/ and proofs/.
#![tactic(auto)]
