// No code: specs/ says what holds of renumbered NODES (W-212), proofs/ has the proof.
#![tactic(auto)]
