// Why an import, or a step of it, is refused: document 01's table, and the numbers that C meets.
ghost use Rattle.std.specs.Prelude.{◌≡◌};
ghost use Rattle.tlv.specs.Refusals.{number_of};

// An enum with a case for each row of the table.
#[derive(Clone, Copy, Debug, PartialEq, Eq, Hash)]
pub enum Refusal {
    // A sheet, or a line program, above its limit of bytes.
    Oversize = 1,
    // A field that breaks the sheet grammar.
    Misshapen = 2,
    // Too many fields or units, a string that is too long, or an entry that is too deep.
    PastLimit = 3,
    // The ordinal names no unit of the main sheet.
    NoUnit = 4,
    // Less work than the input needs.
    ShortWork = 5,
    // A needed value that the decoder marked failed.
    Decoder = 6,
    // An instruction ends past the program.
    Cut = 7,
    // No byte after an extended opcode's length.
    CutExtended = 8,
    // An extended opcode's length is 0.
    ZeroExtended = 9,
    // A tenth operand byte with low bits that don't fit.
    Overflowing = 10,
    // A tenth operand byte that goes on.
    Overlong = 11,
    // An offset or a place past 2^64 - 1.
    Overflow = 12,
    // No entry starts where a followed reference points.
    NoEntry = 13,
    // A kept node would be the 257th below the root.
    TooDeep = 14,
    // A new file would need a number above 4,294,967,295.
    FilesFull = 15,
    // The records tray is shorter than its output.
    ShortRecords = 16,
    // The files tray is.
    ShortFiles = 17,
    // The warnings tray is.
    ShortWarnings = 18,
    // Records that break their grammar.
    MisshapenRecords = 19,
    // No function holds the address.
    NoFunction = 20,
    // A line range of 0, or other operations per instruction than 1.
    LineEncoding = 21,
    // An address that falls within a sequence or passes 2^64 - 1.
    LineAddress = 22,
    // A range list that is cut, or an entry of it of an unknown kind.
    CutList = 23,
    // An index past the address table.
    NoAddress = 24,
    // An address that does not fit its size.
    WideAddress = 25,
    // A symbol tray that breaks its grammar.
    MisshapenSymbols = 26,
    // The result tray is shorter than its output.
    ShortResult = 27,
}

impl Refusal {
    // Its number in the table.
    pub fn number(self) -> u8
        ensures { result ≡ number_of self }
    {
        self as u8
    }
}
