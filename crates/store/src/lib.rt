// What the house keeps: its own sum, SHA-256 of FIPS 180-4, and a bitmap over the units of its tape.
#![tactic(auto)]

pub mod bitmap;
pub mod hasher;
pub mod laws;
mod words;
