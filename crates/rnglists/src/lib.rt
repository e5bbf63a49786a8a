// Range lists (DWARF 5, 2.17.3 and 7.25), a range at a time.
#![tactic(auto)]

pub mod entries;
pub mod lists;
pub mod sizes;
