// No code: specs/ says what holds of the listed differences (W-213), proofs/ has the proof.
#![tactic(auto)]
