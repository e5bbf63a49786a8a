// The form of a records tray (19): document 01's fields in their order.
ghost use Rattle.std.specs.Prelude.{◌≡◌, true, ◌≤◌, eqb, length, drop};
ghost use Rattle.tlv.specs.Tags.{tray_function_tag, tray_node_tag, tray_range_tag};
ghost use Rattle.tlv.specs.Lists.{exists};
ghost use Rattle.tlv.specs.Fields.{fields};
ghost use Rattle.buffers.specs.Reader.{records_after, range_formed, records_formed, depth_after, records_form};
ghost use Rattle.lookup.specs.Tray.{up_to_next};
ghost use Rattle.lookup.specs.Walk.{FieldsFormed};

use crate::model::{DEEPEST, FUNCTION_SIZE, NODE_SIZE, RANGE_SIZE, ROW_SIZE, SITE_SIZE};
use tlv::bytes::Number;
use tlv::fields::next_field;
use tlv::model::AddressRange;
use tlv::tags::{TRAY_FUNCTION_TAG, TRAY_NODE_TAG, TRAY_RANGE_TAG, TRAY_ROW_TAG, TRAY_SITE_TAG};

// Whether a field of a tag may stand after one of the tag `previous`.
#[tactic(auto, unfolding(buffers::specs::Reader::records_after, tlv::specs::Lists::exists))]
pub fn may_follow(previous: u8, tag: u8) -> bool
    ensures { result ≡ exists (eqb tag) (records_after previous) }
{
    // Stays a match: after each tag others may stand.
    match previous {
        TRAY_FUNCTION_TAG | TRAY_ROW_TAG => {
            matches!(
                tag,
                TRAY_FUNCTION_TAG | TRAY_ROW_TAG | TRAY_NODE_TAG | TRAY_SITE_TAG
            )
        }
        TRAY_NODE_TAG => tag == TRAY_RANGE_TAG,
        TRAY_RANGE_TAG => {
            matches!(
                tag,
                TRAY_FUNCTION_TAG | TRAY_NODE_TAG | TRAY_RANGE_TAG | TRAY_SITE_TAG
            )
        }
        TRAY_SITE_TAG => matches!(tag, TRAY_FUNCTION_TAG | TRAY_SITE_TAG),
        _ => tag == TRAY_FUNCTION_TAG,
    }
}

// Whether the range that a payload begins with holds an address.
// Stays a clause, as in symbols: a payload's length is known by its tag's shape, and a type of 16 bytes would be made anew for each field.
fn begins_with_addresses(payload: &[u8]) -> bool
    requires { 16 ≤ length payload.now }
    ensures { result ≡ range_formed payload.now }
{
    !AddressRange::read(payload, 0).is_empty()
}

#[tactic(auto, unfolding(buffers::specs::Reader::records_formed))]
pub fn function_formed(payload: &[u8]) -> bool
    ensures { result ≡ records_formed 0 tray_function_tag payload.now }
{
    FUNCTION_SIZE <= payload.len() && begins_with_addresses(payload)
}

#[tactic(auto, unfolding(buffers::specs::Reader::records_formed))]
fn node_formed(depth: u64, payload: &[u8]) -> bool
    ensures { result ≡ records_formed depth tray_node_tag payload.now }
{
    if payload.len() < NODE_SIZE {
        return false;
    }
    let d = u16::read(payload, 0) as u64;
    d <= depth && d <= DEEPEST && (1 <= d || depth == 0)
}

#[tactic(auto, unfolding(buffers::specs::Reader::records_formed))]
fn range_field_formed(payload: &[u8]) -> bool
    ensures { result ≡ records_formed 0 tray_range_tag payload.now }
{
    payload.len() == RANGE_SIZE && begins_with_addresses(payload)
}

// Whether the payload of a field is formed, where the next node may be `depth` deep.
// Stays a tag and a payload, here and in depth_after, as in tlv's grammar: a struct of both would be made anew for each field.
#[tactic(auto, unfolding(buffers::specs::Reader::records_formed))]
pub fn payload_formed(depth: u64, tag: u8, payload: &[u8]) -> bool
    ensures { result ≡ records_formed depth tag payload.now }
{
    // Stays a match: each tag has a shape of its own.
    match tag {
        TRAY_FUNCTION_TAG => function_formed(payload),
        TRAY_ROW_TAG => payload.len() == ROW_SIZE,
        TRAY_NODE_TAG => node_formed(depth, payload),
        TRAY_RANGE_TAG => range_field_formed(payload),
        TRAY_SITE_TAG => SITE_SIZE <= payload.len(),
        _ => false,
    }
}

// How deep the node after a field may be.
#[tactic(auto, unfolding(buffers::specs::Reader::depth_after, buffers::specs::Reader::records_formed))]
pub fn depth_after(depth: u64, tag: u8, payload: &[u8]) -> u64
    requires { records_formed depth tag payload.now ≡ true }
    ensures { result ≡ depth_after depth (record { tag = tag; payload = payload.now }) }
{
    // Stays a match: each tag sets the depth in its own way.
    match tag {
        TRAY_FUNCTION_TAG => 0,
        TRAY_NODE_TAG => u16::read(payload, 0) as u64 + 1,
        _ => depth,
    }
}

// Whether the fields from a place on, after one of the tag `after`, are in document 01's form up to the first that ends them.
fn fields_formed<F: Fn(u8) -> bool>(s: &[u8], from: usize, after: u8, ends: F) -> bool
    requires { F.IsAlwaysCallable ends }
    ensures { FieldsFormed (F.post ends) s.now from after result }
{
    let mut p = from;
    let mut previous = after;
    let mut depth: u64 = 0;
    // Stays a loop over fields: next_field says why, and tlv's check_input why it goes by the bytes that are left.
    while p < s.len() {
        let Some(field) = next_field(s, p) else {
            return false;
        };
        if ends(field.tag) {
            break;
        }
        let payload = field.payload(s);
        if !may_follow(previous, field.tag) || !payload_formed(depth, field.tag, payload) {
            return false;
        }
        depth = depth_after(depth, field.tag, payload);
        previous = field.tag;
        p = field.next;
    }
    previous != TRAY_NODE_TAG
}

// Whether a tray is in document 01's form.
// Stays a bool: three of the five that ask it fill a lent slice with 0 before they refuse, so an Err would be taken apart there.
pub fn check_records(s: &[u8]) -> bool
    ensures { result ≡ records_form 0 0 (fields s.now) }
{
    fields_formed(s, 0, 0, |_| false)
}

// Whether the fields from a function's own to the next function are in document 01's form.
pub fn own_formed(s: &[u8], own: usize) -> bool
    ensures { result ≡ records_form tray_function_tag 0 (up_to_next (fields (drop own s.now))) }
{
    fields_formed(s, own, TRAY_FUNCTION_TAG, |tag| tag == TRAY_FUNCTION_TAG)
}
