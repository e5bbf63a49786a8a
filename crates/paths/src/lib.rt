// The paths of files: their two parts, and how they are joined (of the Rust's convert/dwarf/lines.rs).
#![tactic(auto)]

pub mod path;
