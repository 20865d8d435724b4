// Leaving a channel and coming back: what holds for every list of operations on a receiver and kept states. Definitions and proofs, no code.
#![tactic(auto)]
