// The line number state machine: the rows of a line program.
#![tactic(auto)]

pub mod extended;
pub mod machine;
pub mod operands;
pub mod program;
pub mod registers;
pub mod steps;
