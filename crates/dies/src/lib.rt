// Inline nodes and call sites of a subprogram: the walk over the entries below it.
#![tactic(auto)]

pub mod calls;
pub mod details;
pub mod dies;
pub mod frames;
pub mod nodes;
pub mod past;
pub mod sites;
pub mod walk;
