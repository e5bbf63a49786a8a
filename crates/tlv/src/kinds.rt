// The kinds of an attribute's value and of a row, by their numbers in a sheet.
// Stays numbers, no enum: a kind may be any byte until it is judged; what one that passed means is for the crates above, as access' `Value` for a value's.

// The kinds of a value.
pub const UNSIGNED_KIND: u8 = 1;

pub const FILE_KIND: u8 = 2; // a number of the line header's files

pub const TEXT_KIND: u8 = 3;

pub const UNIT_REFERENCE_KIND: u8 = 4; // an offset in the unit

pub const SECTION_REFERENCE_KIND: u8 = 5; // an offset in the section

pub const SUPPLEMENTARY_REFERENCE_KIND: u8 = 6; // an offset in the supplementary section

pub const SECTION_OFFSET_KIND: u8 = 7;

pub const LINE_OFFSET_KIND: u8 = 8;

pub const ADDRESS_KIND: u8 = 9;

pub const FAILED_KIND: u8 = 10; // no value: the decoder failed

// The kinds of a row: one of a sequence, one that ends it, and one that could not be read.
pub const PLAIN_ROW: u8 = 0;

pub const END_ROW: u8 = 1;

pub const FAILED_ROW: u8 = 2;
