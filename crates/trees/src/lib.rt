// Trees of files, and how two of them are put together.
#![tactic(auto)]

pub mod differences;
pub mod entries;
pub mod keys;
pub mod laws;
pub mod rows;
pub mod stored;
