// Lines of recorded calls: their fields, and the recorded answer against ours. Nothing here knows the functions that are called.
#![tactic(auto)]

pub mod answer;
pub mod field;
pub mod tell;
