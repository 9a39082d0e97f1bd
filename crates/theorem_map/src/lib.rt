// No code: specs/ says what holds of the map check (demands 2 and 3 of 01, W-205), proofs/ has the proof.
#![tactic(auto)]
