// DWARF's own numbers, under gimli's names.
// Stays numbers, no enum: an attribute's name and an entry's tag may be any number, and these few are asked for.

pub const DW_TAG_INLINED_SUBROUTINE: u16 = 0x1d;

pub const DW_TAG_SUBPROGRAM: u16 = 0x2e;

pub const DW_TAG_CALL_SITE: u16 = 0x48;

pub const DW_AT_NAME: u16 = 0x03;

pub const DW_AT_ABSTRACT_ORIGIN: u16 = 0x31;

pub const DW_AT_DECL_FILE: u16 = 0x3a;

pub const DW_AT_DECL_LINE: u16 = 0x3b;

pub const DW_AT_SPECIFICATION: u16 = 0x47;

pub const DW_AT_CALL_FILE: u16 = 0x58;

pub const DW_AT_CALL_LINE: u16 = 0x59;

pub const DW_AT_LINKAGE_NAME: u16 = 0x6e;

pub const DW_AT_CALL_RETURN_PC: u16 = 0x7d;

pub const DW_AT_CALL_ORIGIN: u16 = 0x7f;

pub const DW_AT_MIPS_LINKAGE_NAME: u16 = 0x2007;

pub const DW_AT_LLVM_STMT_SEQUENCE: u16 = 0x3e0c;
