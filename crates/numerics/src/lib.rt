// No code: specs/ has exact values and ranges, proofs/ the laws of single f32 operations as bounds on exact values, and the ranges of formulas.
#![tactic(auto)]
