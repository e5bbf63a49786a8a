// The file table of an import in the work slice, and a unit's files in it.
#![tactic(auto)]

pub mod hash;
pub mod header;
pub mod index;
pub mod intern;
pub mod joined;
pub mod lookup;
pub mod pieces;
pub mod records;
pub mod sheets;
pub mod spans;
pub mod store;
