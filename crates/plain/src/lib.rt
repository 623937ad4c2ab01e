// The plain houses, to be run: whole trees, one book of all commits, and what each command shows and leaves.
#![tactic(auto)]

pub mod book;
pub mod houses;
pub mod refusal;
pub mod tree;
pub mod weight;
