// The function that ends nearest below an address.
ghost use Rattle.std.specs.Prelude.{◌≡◌};
ghost use Rattle.tlv.specs.Refusals.{as_outcome};
ghost use Rattle.lookup.specs.Lookup.{nearest_below};
ghost use Rattle.lookup.specs.Walk.{Stands, NearestFound};

use crate::form::check_records;
use tlv::fields::next_field;
use tlv::model::AddressRange;
use tlv::refusal::Refusal;
use tlv::tags::TRAY_FUNCTION_TAG;

// Of a tray in document 01's form, the place of the function that has the latest end at or below the address.
fn ending_below(s: &[u8], address: u64) -> Option<usize>
    requires { Stands s.now 0 }
    ensures { NearestFound s.now address result }
{
    let mut p = 0;
    let mut latest = 0;
    let mut found = None;
    // Stays a loop over fields: next_field says why.
    while let Some(field) = next_field(s, p) {
        if field.tag == TRAY_FUNCTION_TAG {
            let end = AddressRange::read(field.payload(s), 0).end;
            if latest < end && end <= address {
                latest = end;
                found = Some(p);
            }
        }
        p = field.next;
    }
    found
}

// The function that ends nearest below an address: the latest end at or below it, the first in the tray among equals.
pub fn nearest_below(s: &[u8], address: u64) -> Result<usize, Refusal>
    ensures { as_outcome result ≡ nearest_below s.now address }
{
    if !check_records(s) {
        return Err(Refusal::MisshapenRecords);
    }
    ending_below(s, address).ok_or(Refusal::NoFunction)
}
