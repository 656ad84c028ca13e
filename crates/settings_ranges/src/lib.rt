// No code: specs/ has the ranges of accepted settings, proofs/ that they hold.
#![tactic(auto)]
