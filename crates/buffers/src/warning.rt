// What a warning is of: document 01's table of kinds, and the numbers that the warnings tray has.
ghost use Rattle.std.specs.Prelude.{◌≡◌};
ghost use Rattle.buffers.specs.WarningKinds.{number_of};

// An enum with a case for each row of the table.
#[derive(Clone, Copy, Debug, PartialEq, Eq)]
pub enum WarningKind {
    // Ranges that could not be read, none of them given.
    MalformedRanges = 1,
    // The same behind ranges that were given.
    StoppedRanges = 2,
    // A subprogram's range that is empty, too long or outside the executable ranges.
    RejectedRange = 3,
    InvalidStatementSequence = 4,
    LineSequenceMismatch = 5,
    MissingLineFile = 6,
    UnrepresentableLine = 7,
    MissingInlineCallFile = 8,
    InvalidInlineCallLine = 9,
    InvalidDeclarationFile = 10,
    InvalidDeclarationLine = 11,
}

impl WarningKind {
    // Its number in the table.
    // Stays beside tlv's Refusal::number: each is the cast of its own enum, under its own definition.
    pub fn number(self) -> u8
        ensures { result ≡ number_of self }
    {
        self as u8
    }
}
