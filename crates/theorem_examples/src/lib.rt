// No code: specs/ has the examples of 01 as a definition, proofs/ the proof that they hold.
#![tactic(auto)]
