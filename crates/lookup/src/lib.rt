// Look-ups in a records tray: what is running at an address.
#![tactic(auto, using(tlv::proofs::FieldLaws::goes_on, tlv::proofs::FieldLaws::lies_within))]

pub mod address;
pub mod below;
pub mod form;
pub mod lent;
pub mod model;
pub mod window;
