// No code: specs/ says what holds of a pair of files (W-207), proofs/ has the proof.
#![tactic(auto)]
