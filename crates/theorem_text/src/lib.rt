// No code: specs/ says what does not change the answers of a text map (W-206), proofs/ has the proofs.
#![tactic(auto)]
