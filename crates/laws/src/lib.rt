// Definitions and laws of lists, bytes, bits and decimal digits, which every other crate cites. No code.
#![tactic(auto)]
