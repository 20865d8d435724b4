// A frame coded: `encode` of the source; and the definitions of both ways, with their laws.
#![tactic(auto)]

pub mod encode;
