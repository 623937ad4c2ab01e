// Pages that keep what is written through any stop.
#![tactic(auto)]

pub mod bytes;
pub mod cells;
pub mod laws;
pub mod machine;
pub mod object;
pub mod told;
pub mod words;
