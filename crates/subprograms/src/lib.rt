// The subprograms of a unit: their ranges, rows and records (the Rust's import_unit_details).
#![tactic(auto, using(tlv::proofs::FieldLaws::goes_on, tlv::proofs::FieldLaws::lies_within))]

pub mod candidates;
pub mod function_lines;
pub mod functions;
pub mod lists;
pub mod model;
pub mod text;
pub mod units;
