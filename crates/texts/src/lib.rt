// Texts that people write and read: hexadecimal, decimal numbers, parts of a line, bytes as they are shown. Nothing is read or written here.
#![tactic(auto)]

pub mod hex;
pub mod number;
pub mod part;
pub mod say;
pub mod show;
pub mod space;
