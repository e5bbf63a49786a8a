// The numbers of a list of symbols.

// The tag of a symbol's field, and how long its payload is before the name: start and size.
pub const SYMBOL_TAG: u8 = 0x50;

pub const SYMBOL_SIZE: usize = 16;
