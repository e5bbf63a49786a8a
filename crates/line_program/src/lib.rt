// Line programs: operands, instructions, and where sequences start (of the Rust's convert/dwarf/lines.rs).
#![tactic(auto)]

pub mod lines;
pub mod operand;
