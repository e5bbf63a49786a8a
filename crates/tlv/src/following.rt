// Which tags may follow which.
ghost use Rattle.std.specs.Prelude.{◌≡◌};
ghost use Rattle.tlv.specs.Grammar.{may_follow};

use crate::tags::{
    ATTRIBUTE_TAG, COMPILATION_TAG, DIRECTORY_TAG, ENCODING_TAG, ENTRY_TAG, FAILURE_TAG, FILE_TAG,
    FILE_ZERO_TAG, HEADER_TAG, LIST_TAG, PART_TAG, RANGE_TAG, ROW_TAG, TEXT_TAG, UNIT_TAG,
};

// Whether a field of a tag may stand after one of the tag `previous`.
#[tactic(auto, unfolding(crate::specs::Grammar::after, crate::specs::Grammar::may_follow, crate::specs::Lists::exists))]
pub fn may_follow(previous: u8, tag: u8) -> bool
    ensures { result ≡ may_follow previous tag }
{
    // Stays a match: the order of the tags is the sheet's own table.
    match previous {
        UNIT_TAG => matches!(
            tag,
            UNIT_TAG | COMPILATION_TAG | TEXT_TAG | HEADER_TAG | ENTRY_TAG
        ),
        COMPILATION_TAG | TEXT_TAG => matches!(tag, UNIT_TAG | TEXT_TAG | HEADER_TAG | ENTRY_TAG),
        HEADER_TAG => matches!(
            tag,
            UNIT_TAG
                | ENCODING_TAG
                | PART_TAG
                | DIRECTORY_TAG
                | FILE_ZERO_TAG
                | FILE_TAG
                | ROW_TAG
                | ENTRY_TAG
        ),
        ENCODING_TAG => matches!(
            tag,
            UNIT_TAG | PART_TAG | DIRECTORY_TAG | FILE_ZERO_TAG | FILE_TAG | ROW_TAG | ENTRY_TAG
        ),
        PART_TAG | DIRECTORY_TAG => matches!(
            tag,
            UNIT_TAG | DIRECTORY_TAG | FILE_ZERO_TAG | FILE_TAG | ROW_TAG | ENTRY_TAG
        ),
        FILE_ZERO_TAG | FILE_TAG => matches!(tag, UNIT_TAG | FILE_TAG | ROW_TAG | ENTRY_TAG),
        ROW_TAG => matches!(tag, UNIT_TAG | ROW_TAG | ENTRY_TAG),
        ENTRY_TAG | ATTRIBUTE_TAG => matches!(
            tag,
            UNIT_TAG | ENTRY_TAG | ATTRIBUTE_TAG | RANGE_TAG | FAILURE_TAG | LIST_TAG
        ),
        RANGE_TAG => matches!(tag, UNIT_TAG | ENTRY_TAG | RANGE_TAG | FAILURE_TAG),
        FAILURE_TAG | LIST_TAG => matches!(tag, UNIT_TAG | ENTRY_TAG),
        _ => tag == UNIT_TAG,
    }
}
