// Commands, and the bytes that spell them.
#![tactic(auto)]

mod command;
mod kind;
pub mod laws;
mod parts;
mod reader;
mod refusal;
mod writer;

pub use command::Command;
pub use kind::{Kind, NoKind};
pub use reader::parse;
pub use refusal::{NoRefusal, Refusal};
pub use writer::spell;
