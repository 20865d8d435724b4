// Address fields, and what a frame is: the definitions and their laws, the letters of a field, how many digipeaters there are and their alias, and the type of a frame.
#![tactic(auto)]

pub mod address;
pub mod alias;
pub mod call_bytes;
pub mod classify;
pub mod parse;
pub mod record;
pub mod trim;
