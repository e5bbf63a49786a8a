// The import of a unit and of all units (the Rust's convert/dwarf.rs).
#![tactic(auto)]

pub mod import;
pub mod lent;
pub mod model;
pub mod part;
pub mod run;
pub mod tables;
pub mod unit;
