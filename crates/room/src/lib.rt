// The most bytes that the coder and the decoder answer. Definitions and proofs, no code.
#![tactic(auto)]
