// No code: specs/ says what holds of a record that is read and written back (01, demand 2), proofs/ has the proof.
#![tactic(auto)]
