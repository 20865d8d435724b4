// Whole bodies of APRS frames: messages, a body by its type, and third-party bodies.
#![tactic(auto)]

pub mod body;
pub mod third;
