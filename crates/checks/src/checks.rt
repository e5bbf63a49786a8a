// Refusals 1 to 5.
ghost use Rattle.std.specs.Prelude.{◌≡◌, ◌+◌, ◌≤◌};
ghost use Rattle.tlv.specs.Limits.{program_limit, field_limit, list_limit};
ghost use Rattle.tlv.specs.Model.{units};
ghost use Rattle.tlv.specs.Checked.{Accepted};
ghost use Rattle.access.specs.Places.{unit_here};
ghost use Rattle.files.specs.Pieces.{UnitPlaced};
ghost use Rattle.imports.specs.Answer.{work_of_lists, work_of_unit, work_of_units};
ghost use Rattle.checks.specs.Checks.{oversize_of, ChecksBoth, is_encoded, work_of_program, work_limit, short_of, missing_of, chosen_units};
ghost use Rattle.checks.specs.Layout.{Sized};

use crate::layout::Counts;
use crate::options::{Options, Sizes};
use access::access::{list_count, next_before_rows, unit_by_ordinal};
use files::sheets::Sheets;
use rnglists::lists::RangeLists;
use tlv::fields::next_field;
use tlv::grammar::check_input;
use tlv::refusal::Refusal;
use tlv::tags::{ENCODING_TAG, UNIT_TAG, UNIT_WHOLE};

// The longest input, the longest line program, and the longest list section and address table.
const INPUT_LIMIT: usize = 16777216;

const PROGRAM_LIMIT: usize = 4194304;

const LIST_LIMIT: usize = 4194304;

// The work length that document 01 asks for: bytes for each field of both inputs, ..
const WORK_OF_FIELD: usize = 64;

// .. for each byte of the line program, ..
const WORK_OF_PROGRAM_BYTE: usize = 4;

// .. or of one that gives rows (document 02, E8), ..
const WORK_OF_ENCODED_BYTE: usize = 64;

// .. for each byte of the range lists and each of a unit's fields 1f, of which so many count (E9), ..
const WORK_OF_LIST_BYTE: usize = 8;

const COUNTED_LISTS: usize = 256;

// .. and besides.
const WORK_BESIDES: usize = 32768;

// Refusal 1 of two inputs, a program, the range lists and their addresses.
pub fn is_oversize(sheets: Sheets, program: &[u8], lists: RangeLists) -> bool
    ensures { result ≡ oversize_of sheets.entry.main.now sheets.entry.supplementary.now program.now
        lists.entry.lists.now lists.entry.addresses.now }
{
    INPUT_LIMIT < sheets.main.len()
        || INPUT_LIMIT < sheets.supplementary.len()
        || PROGRAM_LIMIT < program.len()
        || LIST_LIMIT < lists.lists.len()
        || LIST_LIMIT < lists.addresses.len()
}

// Refusals 2 and 3, with a program of so many bytes: the main input before the supplementary one. Else how many fields both have.
pub fn check_both(sheets: Sheets, program: usize) -> Result<usize, Refusal>
    ensures { ChecksBoth sheets.entry.main.now sheets.entry.supplementary.now program result }
{
    let m = check_input(sheets.main, program)?;
    let s = check_input(sheets.supplementary, program)?;
    Ok((m + s) as usize)
}

// Refusal 4: there is no such unit, and the input is no package without debug data, which is empty and asked for ordinal 0.
pub fn is_missing(main: &[u8], options: Options) -> bool
    ensures { result ≡ missing_of main.now options }
{
    let Some(ordinal) = options.ordinal else {
        return false;
    };
    match unit_by_ordinal(main, ordinal) {
        Some(_) => false,
        None => !main.is_empty() || ordinal != 0,
    }
}

// Whether the rows of the unit at a place come from the line program (document 02, E8).
pub fn has_encoding(main: &[u8], place: usize) -> bool
    requires { UnitPlaced main.now place }
    ensures { result ≡ is_encoded (unit_here main.now place) }
{
    next_before_rows(main, place + UNIT_WHOLE, ENCODING_TAG).is_some()
}

// The work that a program of so many bytes asks for.
fn work_of_program(encoded: bool, size: usize) -> usize
    requires { size ≤ program_limit }
    ensures { result ≡ work_of_program encoded size }
{
    if encoded {
        WORK_OF_ENCODED_BYTE * size
    } else {
        WORK_OF_PROGRAM_BYTE * size
    }
}

// The work that so many range lists ask for, in a section of so many bytes (document 02, E9).
fn work_of_lists(lists: usize, bytes: usize) -> usize
    requires { bytes ≤ list_limit }
    ensures { result ≡ work_of_lists lists bytes }
{
    WORK_OF_LIST_BYTE * bytes * lists.min(COUNTED_LISTS)
}

// The work that the unit at a place asks for besides its fields.
fn work_of_unit(main: &[u8], place: usize, sizes: Sizes) -> usize
    requires { UnitPlaced main.now place }
    ensures { result ≡ work_of_unit sizes.program sizes.lists (unit_here main.now place) }
{
    let program = work_of_program(has_encoding(main, place), sizes.program);
    program + work_of_lists(list_count(main, place + UNIT_WHOLE), sizes.lists)
}

// The work of the unit that asks for most, of all units; where there is none, that of the program.
fn most_work(main: &[u8], sizes: Sizes) -> usize
    requires { Accepted main.now }
    ensures { result ≡ work_of_units sizes.program sizes.lists (units main.now) }
{
    let mut most = WORK_OF_PROGRAM_BYTE * sizes.program;
    let mut p = 0;
    // Stays a loop over fields: next_field says why.
    while let Some(field) = next_field(main, p) {
        if field.tag == UNIT_TAG {
            most = most.max(work_of_unit(main, p, sizes));
        }
        p = field.next;
    }
    most
}

// The same of the units that are asked for, in an input with these counts.
pub fn work_of_units(main: &[u8], options: Options, counts: Counts, sizes: Sizes) -> usize
    requires { (Accepted main.now) × (Sized main.now counts) }
    ensures { result ≡ work_of_units sizes.program sizes.lists (chosen_units options (units main.now)) }
{
    if counts.encodings + counts.lists == 0 {
        return WORK_OF_PROGRAM_BYTE * sizes.program;
    }
    let Some(ordinal) = options.ordinal else {
        return most_work(main, sizes);
    };
    match unit_by_ordinal(main, ordinal) {
        Some(place) => work_of_unit(main, place, sizes),
        None => WORK_OF_PROGRAM_BYTE * sizes.program,
    }
}

// Refusal 5, of two inputs with so many fields, whose units ask for so much.
pub fn is_short(work: &[u8], number: usize, most: usize) -> bool
    requires { (number ≤ field_limit + field_limit) × (most ≤ work_limit) }
    ensures { result ≡ short_of work.now number most }
{
    work.len() < WORK_OF_FIELD * number + most + WORK_BESIDES
}
