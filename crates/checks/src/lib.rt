// Refusals 1 to 5, what is asked for, and where the tables of an import stand in the work slice.
#![tactic(auto)]

pub mod checks;
pub mod layout;
pub mod options;
