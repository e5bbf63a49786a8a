// A unit's rows and sequences in the work slice: their stable sort, and the rows of a function.
#![tactic(auto)]

pub mod earlier;
pub mod line;
pub mod normalize;
pub mod search;
pub mod sort;
pub mod unit_lines;
