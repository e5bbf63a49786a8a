// What is written: numbers and records in the work slice, fields in the output buffers, and how they are read back.
#![tactic(auto)]

pub mod numbers;
pub mod output;
pub mod search;
pub mod table;
pub mod warning;
