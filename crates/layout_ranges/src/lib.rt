// No code: specs/ has the ranges of a layout's numbers, proofs/ which changes of a layout keep them.
#![tactic(auto)]
