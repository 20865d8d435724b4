// Demand 3: what a receiver hands out, for every list of calls. Definitions and proofs, no code.
#![tactic(auto)]
