// No code: specs/ has what may be counted on of written orders, proofs/ shows it.
#![tactic(auto)]
