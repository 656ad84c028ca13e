// No code: specs/ has lists and answers as definitions of all crates use them, proofs/ laws of these, of booleans, integers and loops over arrays.
#![tactic(auto)]
