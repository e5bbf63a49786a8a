// Type-length-value fields: the grammar of a sheet, and what its fields say.
#![tactic(auto)]

pub mod bytes;
pub mod constants;
pub mod fields;
pub mod following;
pub mod grammar;
pub mod kinds;
pub mod model;
pub mod refusal;
pub mod shapes;
pub mod tags;
