// Bytes as text on a line: in hexadecimal, and with escapes.
#![tactic(auto)]

pub mod escape;
pub mod hex;
