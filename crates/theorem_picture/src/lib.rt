// No code: specs/ says what reading a written picture gives (W-201), proofs/ has the proof.
#![tactic(auto)]
