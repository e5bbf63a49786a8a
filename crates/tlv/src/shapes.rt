// The shapes of payloads, a predicate for each tag.
ghost use Rattle.std.specs.Prelude.{◌≡◌, ◌<◌, length};
ghost use Rattle.tlv.specs.Bytes.{le_at};
ghost use Rattle.tlv.specs.Grammar.{is_version, is_word, is_flag, unit_shaped, text_shaped, header_shaped, encoding_shaped, part_shaped};
ghost use Rattle.tlv.specs.Grammar.{directory_shaped, file_shaped, row_shaped, entry_shaped, value_shaped, attribute_shaped, range_shaped};
ghost use Rattle.tlv.specs.Grammar.{failure_shaped, list_shaped};

use crate::bytes::Number;
use crate::grammar::Context;
use crate::kinds::{ADDRESS_KIND, FAILED_KIND, FAILED_ROW, TEXT_KIND, UNSIGNED_KIND};
use crate::tags::{ENTRY_DEPTH, ENTRY_WHOLE, FIELD_HEAD, RANGE_TAG};

// Where the numbers of a unit stand in its payload behind its offset, and the payload's length: its word size is at the end.
pub const UNIT_LENGTH: usize = 8;

pub const UNIT_VERSION: usize = UNIT_LENGTH + 8;

pub const UNIT_WORD: usize = UNIT_VERSION + 1;

const UNIT_FIELD: usize = UNIT_WORD + 1;

// The length of the payload of an executable range.
const TEXT_FIELD: usize = 16;

// The same of a line header: behind its opcode base stand the lengths of the opcodes, as many as there are.
pub const HEADER_LENGTH: usize = 8;

pub const HEADER_VERSION: usize = HEADER_LENGTH + 8;

pub const HEADER_WORD: usize = HEADER_VERSION + 1;

pub const HEADER_OPCODES: usize = HEADER_WORD + 1;

pub const HEADER_LEAST: usize = HEADER_OPCODES + 1;

// Where the texts of a directory and of a file begin, behind a flag, and a file's directory.
pub const DIRECTORY_TEXT: usize = 1;

pub const FILE_DIRECTORY: usize = 1;

pub const FILE_TEXT: usize = FILE_DIRECTORY + 8;

// Where an attribute's kind and value stand, behind its name.
pub const ATTRIBUTE_KIND: usize = 2;

pub const ATTRIBUTE_VALUE: usize = ATTRIBUTE_KIND + 1;

// Where a range's tombstone flag stands, at the payload's end, and where the reason of a failure begins, behind its stage.
pub const RANGE_TOMBSTONE: usize = 16;

const RANGE_FIELD: usize = RANGE_TOMBSTONE + 1;

pub const FAILURE_REASON: usize = 1;

// Where an entry's depth stands in its payload, and the payload's length.
pub const OWN_DEPTH: usize = ENTRY_DEPTH - FIELD_HEAD;

const ENTRY_FIELD: usize = ENTRY_WHOLE - FIELD_HEAD;

// Where a line encoding's numbers stand in its payload, behind the minimum instruction length, of a byte each; and the payload's length.
pub const ENCODING_OPERATIONS: usize = 1;

pub const ENCODING_FLAG: usize = 2;

pub const ENCODING_LINE_BASE: usize = 3;

pub const ENCODING_LINE_RANGE: usize = 4;

pub const ENCODING_FIELD: usize = 5;

// The field that names a unit's part of the line program: where the length stands behind the start, and the length of its payload.
pub const PART_LENGTH: usize = 8;

pub const PART_FIELD: usize = PART_LENGTH + 8;

// The field of a range list: where the base address, the place of the unit's addresses and the address size stand in its payload, the payload's length, and
// the only version of a unit that has it.
pub const LIST_BASE: usize = 8;

pub const LIST_ADDRESSES: usize = LIST_BASE + 8;

pub const LIST_SIZE: usize = LIST_ADDRESSES + 8;

const LIST_FIELD: usize = LIST_SIZE + 1;

const LIST_VERSION: u8 = 5;

// Where a row field's file, line, column and kind stand in its payload, behind its address: the kind at its end.
pub const ROW_FILE: usize = 8;

pub const ROW_LINE: usize = ROW_FILE + 8;

pub const ROW_COLUMN: usize = ROW_LINE + 8;

pub const ROW_KIND: usize = ROW_COLUMN + 2;

// The length of a row field's payload.
pub const ROW_FIELD: usize = ROW_KIND + 1;

// The whole field: its tag, its length and its payload.
pub const ROW_WHOLE: usize = FIELD_HEAD + ROW_FIELD;

// The shape of each field's payload.

// The versions of DWARF that a sheet may have.
fn is_version(n: u8) -> bool
    ensures { result ≡ is_version n }
{
    2 <= n && n <= 5
}

// The sizes of an offset, or of an address.
fn is_word(n: u8) -> bool
    ensures { result ≡ is_word n }
{
    n == 4 || n == 8
}

// Whether the byte at a place is a flag: 0 or 1.
fn flag_at(payload: &[u8], at: usize) -> bool
    requires { at < length payload.now }
    ensures { result ≡ is_flag (le_at 1 payload.now at) }
{
    u8::read(payload, at) <= 1
}

// 10 unit: offset, length, version, word size. It lies behind the unit before it.
#[tactic(auto, unfolding(crate::specs::Grammar::unit_shaped))]
pub fn unit_shaped(c: Context, payload: &[u8]) -> bool
    ensures { result ≡ unit_shaped c payload.now }
{
    if payload.len() != UNIT_FIELD {
        return false;
    }
    let offset = u64::read(payload, 0);
    let size = u64::read(payload, UNIT_LENGTH);
    let version = u8::read(payload, UNIT_VERSION);
    let word = u8::read(payload, UNIT_WORD);
    let room = u64::MAX - offset;
    is_version(version) && is_word(word) && size <= room && c.end <= offset
}

// 12 executable range: start, end.
#[tactic(auto, unfolding(crate::specs::Grammar::text_shaped))]
pub fn text_shaped(payload: &[u8]) -> bool
    ensures { result ≡ text_shaped payload.now }
{
    payload.len() == TEXT_FIELD
}

// 13 line header: offset, header length, version, word size, opcode base, opcode lengths.
#[tactic(auto, unfolding(crate::specs::Grammar::header_shaped))]
pub fn header_shaped(payload: &[u8]) -> bool
    ensures { result ≡ header_shaped payload.now }
{
    if payload.len() < HEADER_LEAST {
        return false;
    }
    let version = u8::read(payload, HEADER_VERSION);
    let word = u8::read(payload, HEADER_WORD);
    is_version(version) && is_word(word)
}

// 1d line encoding: minimum instruction length, operations, default statement flag, line base, line range.
#[tactic(auto, unfolding(crate::specs::Grammar::encoding_shaped))]
pub fn encoding_shaped(payload: &[u8]) -> bool
    ensures { result ≡ encoding_shaped payload.now }
{
    payload.len() == ENCODING_FIELD && flag_at(payload, ENCODING_FLAG)
}

// 1e part of the line program: start, length. No part passes the program.
#[tactic(auto, unfolding(crate::specs::Grammar::part_shaped))]
pub fn part_shaped(c: Context, payload: &[u8]) -> bool
    ensures { result ≡ part_shaped c payload.now }
{
    if payload.len() != PART_FIELD {
        return false;
    }
    let from = u64::read(payload, 0);
    let size = u64::read(payload, PART_LENGTH);
    if c.program < from {
        return false;
    }
    size <= c.program - from
}

// 14 directory: a flag, the text.
#[tactic(auto, unfolding(crate::specs::Grammar::directory_shaped))]
pub fn directory_shaped(payload: &[u8]) -> bool
    ensures { result ≡ directory_shaped payload.now }
{
    DIRECTORY_TEXT <= payload.len() && flag_at(payload, 0)
}

// 15 file and 1c file 0: a flag, the directory's number, the text.
#[tactic(auto, unfolding(crate::specs::Grammar::file_shaped))]
pub fn file_shaped(payload: &[u8]) -> bool
    ensures { result ≡ file_shaped payload.now }
{
    FILE_TEXT <= payload.len() && flag_at(payload, 0)
}

// 16 row: address, file number, line, column, kind. A unit with a line encoding has no rows of its own.
#[tactic(auto, unfolding(crate::specs::Grammar::row_shaped))]
pub fn row_shaped(c: Context, payload: &[u8]) -> bool
    ensures { result ≡ row_shaped c payload.now }
{
    if c.encoded {
        return false;
    }
    if payload.len() != ROW_FIELD {
        return false;
    }
    u8::read(payload, ROW_KIND) <= FAILED_ROW
}

// 17 entry: offset, depth, tag. Offsets rise and stay below the unit's length; a depth is at most one more than that before.
#[tactic(auto, unfolding(crate::specs::Grammar::entry_shaped))]
pub fn entry_shaped(c: Context, payload: &[u8]) -> bool
    ensures { result ≡ entry_shaped c payload.now }
{
    if payload.len() != ENTRY_FIELD {
        return false;
    }
    let offset = u64::read(payload, 0);
    let depth = u16::read(payload, OWN_DEPTH) as u64;
    c.offset <= offset && offset < c.length && depth <= c.depth && (1 <= depth || c.depth == 0)
}

// The value of an attribute by its kind and its length.
#[tactic(auto, unfolding(crate::specs::Grammar::value_shaped))]
pub fn value_shaped(kind: u8, n: usize) -> bool
    ensures { result ≡ value_shaped kind n }
{
    // Stays a match: the kinds are the sheet's own table.
    match kind {
        TEXT_KIND => true,
        UNSIGNED_KIND..=ADDRESS_KIND => n == 8,
        FAILED_KIND => n == 0,
        _ => false,
    }
}

// 18 attribute: name, kind, value.
#[tactic(auto, unfolding(crate::specs::Grammar::attribute_shaped))]
pub fn attribute_shaped(payload: &[u8]) -> bool
    ensures { result ≡ attribute_shaped payload.now }
{
    if payload.len() < ATTRIBUTE_VALUE {
        return false;
    }
    value_shaped(
        u8::read(payload, ATTRIBUTE_KIND),
        payload.len() - ATTRIBUTE_VALUE,
    )
}

// 19 range: start, end, tombstone flag.
#[tactic(auto, unfolding(crate::specs::Grammar::range_shaped))]
pub fn range_shaped(payload: &[u8]) -> bool
    ensures { result ≡ range_shaped payload.now }
{
    payload.len() == RANGE_FIELD && flag_at(payload, RANGE_TOMBSTONE)
}

// 1a failure to read ranges: stage, reason. Behind a range it cannot be of the stage before any.
#[tactic(auto, unfolding(crate::specs::Grammar::failure_shaped))]
pub fn failure_shaped(previous: u8, payload: &[u8]) -> bool
    ensures { result ≡ failure_shaped previous payload.now }
{
    if payload.len() < FAILURE_REASON {
        return false;
    }
    let stage = u8::read(payload, 0);
    stage <= 1 && (stage == 1 || previous != RANGE_TAG)
}

// 1f range list: offset, base address, place of the unit's addresses, address size.
#[tactic(auto, unfolding(crate::specs::Grammar::list_shaped))]
pub fn list_shaped(c: Context, payload: &[u8]) -> bool
    ensures { result ≡ list_shaped c payload.now }
{
    if payload.len() != LIST_FIELD {
        return false;
    }
    let size = u8::read(payload, LIST_SIZE);
    c.version == LIST_VERSION && is_word(size)
}
