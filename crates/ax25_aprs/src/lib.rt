// The bodies of APRS frames: text with the dictionary and altitudes, positions with and without a time, fields of third-party bodies.
#![tactic(auto)]

pub mod body;
pub mod field;
mod height;
pub mod latlon;
mod number;
mod place;
mod runs;
pub mod text;
pub mod third;
mod words;
