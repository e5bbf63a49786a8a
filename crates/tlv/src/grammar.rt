// Which sheets are accepted: the first bad field decides, and in one field 2 (misshapen) goes before 3 (past limit).
ghost use Rattle.std.specs.Prelude.{◌≡◌, true, ◌+◌, ◌≤◌, length, take, drop};
ghost use Rattle.tlv.specs.Grammar.{payload_shaped, payload_limited, shaped, limited, next, check_input};
ghost use Rattle.tlv.specs.Refusals.{as_outcome};
ghost use Rattle.tlv.specs.Checked.{judged_of};

use crate::bytes::Number;
use crate::fields::next_field;
use crate::following::may_follow;
use crate::kinds::TEXT_KIND;
use crate::refusal::Refusal;
use crate::shapes::{
    ATTRIBUTE_KIND, ATTRIBUTE_VALUE, DIRECTORY_TEXT, FAILURE_REASON, FILE_TEXT, OWN_DEPTH,
    UNIT_LENGTH, UNIT_VERSION, attribute_shaped, directory_shaped, encoding_shaped, entry_shaped,
    failure_shaped, file_shaped, header_shaped, list_shaped, part_shaped, range_shaped, row_shaped,
    text_shaped, unit_shaped,
};
use crate::tags::{
    ATTRIBUTE_TAG, COMPILATION_TAG, DIRECTORY_TAG, ENCODING_TAG, ENTRY_TAG, FAILURE_TAG, FILE_TAG,
    FILE_ZERO_TAG, HEADER_TAG, LIST_TAG, PART_TAG, RANGE_TAG, ROW_TAG, TEXT_TAG, UNIT_TAG,
};

pub const FIELD_LIMIT: u64 = 65536;

const UNIT_LIMIT: u64 = 256;

pub const STRING_LIMIT: usize = 6113;

const REASON_LIMIT: usize = 4096;

const DEPTH_LIMIT: u16 = 1024;

// What the fields so far leave to check the next one against.
// Stays 0 for no tag before the first field, no Option: the definition has it so, and what may follow is asked of one number.
#[derive(Clone, Copy, Debug, Default)]
pub struct Context {
    pub previous: u8, // the tag of the last field, 0 before the first
    pub count: u64, // fields so far
    pub units: u64, // units so far
    pub end: u64, // where the last unit ends
    pub length: u64, // its length
    pub version: u8, // its version
    pub offset: u64, // the least offset that the next entry may have
    pub depth: u64, // the largest depth that the next entry may have
    pub program: u64, // the bytes of the line program that is lent with the input
    pub encoded: bool, // the last unit has a line encoding, so it may have no row
}

// Whether a field's payload has its tag's shape.
// Stays a tag and a payload, here, below, and in lookup and symbols: next_field has the payload's place; a struct of both would be made anew for each.
#[tactic(auto, unfolding(crate::specs::Grammar::payload_shaped))]
pub fn payload_shaped(c: Context, tag: u8, payload: &[u8]) -> bool
    ensures { result ≡ payload_shaped c tag payload.now }
{
    // Stays a match: each tag has a shape of its own.
    match tag {
        UNIT_TAG => unit_shaped(c, payload),
        COMPILATION_TAG => true,
        TEXT_TAG => text_shaped(payload),
        HEADER_TAG => header_shaped(payload),
        ENCODING_TAG => encoding_shaped(payload),
        PART_TAG => part_shaped(c, payload),
        DIRECTORY_TAG => directory_shaped(payload),
        FILE_TAG | FILE_ZERO_TAG => file_shaped(payload),
        ROW_TAG => row_shaped(c, payload),
        ENTRY_TAG => entry_shaped(c, payload),
        ATTRIBUTE_TAG => attribute_shaped(payload),
        RANGE_TAG => range_shaped(payload),
        FAILURE_TAG => failure_shaped(c.previous, payload),
        LIST_TAG => list_shaped(c, payload),
        _ => false,
    }
}

// Whether a payload that is shaped is within the limits.
#[tactic(auto, using(crate::proofs::PayloadFacts::lengths), unfolding(crate::specs::Grammar::payload_limited))]
pub fn payload_limited(c: Context, tag: u8, payload: &[u8]) -> bool
    requires { payload_shaped c tag payload.now ≡ true }
    ensures { result ≡ payload_limited c tag payload.now }
{
    // Stays a match: each tag has a limit of its own.
    match tag {
        UNIT_TAG => c.units < UNIT_LIMIT,
        COMPILATION_TAG => payload.len() <= STRING_LIMIT,
        DIRECTORY_TAG => payload.len() <= STRING_LIMIT + DIRECTORY_TEXT,
        FILE_TAG | FILE_ZERO_TAG => payload.len() <= STRING_LIMIT + FILE_TEXT,
        ENTRY_TAG => u16::read(payload, OWN_DEPTH) <= DEPTH_LIMIT,
        ATTRIBUTE_TAG => {
            u8::read(payload, ATTRIBUTE_KIND) != TEXT_KIND
                || payload.len() <= STRING_LIMIT + ATTRIBUTE_VALUE
        }
        FAILURE_TAG => payload.len() <= REASON_LIMIT + FAILURE_REASON,
        _ => true,
    }
}

// The context after a field that has passed.
#[tactic(auto, using(crate::proofs::PayloadFacts::lengths), unfolding(crate::specs::Grammar::next, crate::specs::Grammar::shaped))]
pub fn next(c: Context, tag: u8, payload: &[u8]) -> Context
    requires shaped { shaped c (record { tag = tag; payload = payload.now }) ≡ true }
    requires limited { limited c (record { tag = tag; payload = payload.now }) ≡ true }
    ensures { result ≡ next c (record { tag = tag; payload = payload.now }) }
{
    let after = Context {
        previous: tag,
        count: c.count + 1,
        ..c
    };
    // Stays a match: each tag leaves a context of its own.
    match tag {
        UNIT_TAG => {
            let offset = u64::read(payload, 0);
            let length = u64::read(payload, UNIT_LENGTH);
            Context {
                units: c.units + 1,
                end: offset + length,
                length,
                version: u8::read(payload, UNIT_VERSION),
                offset: 0,
                depth: 0,
                encoded: false,
                ..after
            }
        }
        ENTRY_TAG => Context {
            offset: u64::read(payload, 0) + 1,
            depth: u16::read(payload, OWN_DEPTH) as u64 + 1,
            ..after
        },
        _ => Context {
            encoded: tag == ENCODING_TAG || c.encoded,
            ..after
        },
    }
}

// What becomes of one field: the context after it, or why not.
#[tactic(auto, unfolding(crate::specs::Checked::judged_of, crate::specs::Grammar::shaped, crate::specs::Grammar::limited))]
fn judge(c: Context, tag: u8, payload: &[u8]) -> Result<Context, Refusal>
    ensures { result ≡ judged_of c (record { tag = tag; payload = payload.now }) }
{
    if !may_follow(c.previous, tag) {
        return Err(Refusal::Misshapen);
    }
    if !payload_shaped(c, tag, payload) {
        return Err(Refusal::Misshapen);
    }
    if FIELD_LIMIT <= c.count {
        return Err(Refusal::PastLimit);
    }
    if !payload_limited(c, tag, payload) {
        return Err(Refusal::PastLimit);
    }
    Ok(next(c, tag, payload))
}

// What becomes of an input (document 01: a sheet), with the length of the line program that is lent with it: the number of its fields, or why not.
#[tactic(auto, using(crate::proofs::FieldLaws::goes_on, crate::proofs::FieldLaws::lies_within))]
pub fn check_input(s: &[u8], program: usize) -> Result<u64, Refusal>
    ensures { as_outcome result ≡ check_input program s.now }
{
    let mut p: usize = 0;
    let mut c = Context {
        program: program as u64,
        ..Context::default()
    };
    // Stays a loop over fields, as next_field says: here bytes that are left tell a cut field from the end besides.
    while p < s.len() {
        let field = next_field(s, p).ok_or(Refusal::Misshapen)?;
        c = judge(c, field.tag, field.payload(s))?;
        p = field.next;
    }
    Ok(c.count)
}
