// Address ranges in the work slice: put in order and merged, those of an inlined entry gathered.
#![tactic(auto)]

pub mod gather;
pub mod inlined;
pub mod order;
pub mod ranges;
