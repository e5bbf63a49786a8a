// Names and declarations by reference (the Rust's convert/dwarf/references.rs).
#![tactic(auto)]

pub mod attributes;
pub mod keys;
pub mod names;
pub mod reference_names;
pub mod tables;
pub mod trails;
pub mod warnings;
pub mod ways;
