// Fields of an accepted sheet by place: units, entries, attributes, and the tables that find them.
#![tactic(auto, using(tlv::proofs::FieldLaws::goes_on, tlv::proofs::FieldLaws::lies_within))]

pub mod access;
pub mod index;
pub mod units;
