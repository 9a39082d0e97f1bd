// No code: specs/ says what the draw order lists on an accepted map (W-208), proofs/ has the proof.
#![tactic(auto)]
