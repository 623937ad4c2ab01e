// What the house keeps on its tape: where each thing stands in memory, ranks in the bitmap of its units, the walk that meets all that is
// live, the sweep that copies it, and how each kind of object is laid out.
#![tactic(auto)]

pub mod cells;
pub mod laws;
pub mod layouts;
pub mod mark;
pub mod pack;
pub mod plan;
pub mod ranks;
pub mod room;
pub mod sweep;
