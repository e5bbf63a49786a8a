// Look-ups by an index of the functions in a records tray.
#![tactic(auto, using(tlv::proofs::FieldLaws::goes_on, tlv::proofs::FieldLaws::lies_within))]

pub mod index;
pub mod lookin;
