// The book of all commits: their ids, which come before which, and the order of a log.
#![tactic(auto)]

pub mod laws;
