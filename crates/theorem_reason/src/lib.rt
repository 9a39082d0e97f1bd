// No code: specs/ says what holds of a reason (W-211), proofs/ has the proof.
#![tactic(auto)]
