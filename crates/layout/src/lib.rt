// No code: specs/ says how bytes are laid out one after the other, proofs/ has the laws of it.
#![tactic(auto)]
