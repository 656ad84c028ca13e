// No code: specs/ has which fields of a written layout are the game and the elements, proofs/ that reading gives back what was written.
#![tactic(auto)]
