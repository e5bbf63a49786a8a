// A unit's line rows, its files and its sequences (the Rust's collect_lines).
#![tactic(auto)]

pub mod collect;
pub mod convert;
pub mod finish;
pub mod header;
pub mod interned;
pub mod passes;
pub mod program;
pub mod sought;
pub mod source;
pub mod unit_rows;
pub mod walks;
