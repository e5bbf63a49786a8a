// The tags of the fields of a sheet, in the order in which a unit has them, where a unit and an entry have their numbers, and the tags of a tray.
// Stays numbers, no enum: a field's tag may be any byte until it is judged, and a walk asks for the few that it needs.

pub const UNIT_TAG: u8 = 0x10;

pub const COMPILATION_TAG: u8 = 0x11; // the compilation directory

pub const TEXT_TAG: u8 = 0x12; // an executable range

pub const HEADER_TAG: u8 = 0x13; // the line header

pub const ENCODING_TAG: u8 = 0x1d; // the line encoding

pub const PART_TAG: u8 = 0x1e; // the part of the line program

pub const DIRECTORY_TAG: u8 = 0x14;

pub const FILE_ZERO_TAG: u8 = 0x1c;

pub const FILE_TAG: u8 = 0x15;

pub const ROW_TAG: u8 = 0x16;

pub const ENTRY_TAG: u8 = 0x17;

pub const ATTRIBUTE_TAG: u8 = 0x18;

pub const RANGE_TAG: u8 = 0x19;

pub const FAILURE_TAG: u8 = 0x1a; // a failure to read ranges

pub const LIST_TAG: u8 = 0x1f; // a range list

// The head of a field: its tag and the two bytes of its length.
pub const FIELD_HEAD: usize = 3;

// Where a unit's offset stands, from its field's place on, and the whole field.
pub const UNIT_OFFSET: usize = FIELD_HEAD;

pub const UNIT_WHOLE: usize = FIELD_HEAD + 18;

// The same of an entry: its offset in its unit, its depth behind that, then DWARF's tag, and the whole field.
pub const ENTRY_OFFSET: usize = FIELD_HEAD;

pub const ENTRY_DEPTH: usize = ENTRY_OFFSET + 8;

pub const ENTRY_KIND: usize = ENTRY_DEPTH + 2;

pub const ENTRY_WHOLE: usize = ENTRY_KIND + 2;

// The tags of the trays' fields.
pub const TRAY_FILE_TAG: u8 = 0x40;

pub const TRAY_FUNCTION_TAG: u8 = 0x41;

pub const TRAY_ROW_TAG: u8 = 0x42;

pub const TRAY_NODE_TAG: u8 = 0x43;

pub const TRAY_RANGE_TAG: u8 = 0x44;

pub const TRAY_SITE_TAG: u8 = 0x45;

pub const TRAY_WARNING_TAG: u8 = 0x46;
