// The plain structs of the Rust's model.rs that fields are made of.
ghost use Rattle.std.specs.Prelude.{◌≡◌, ◌&&◌, ◌+◌, ◌≤◌, leb, ltb, length, take, drop};
ghost use Rattle.tlv.specs.Model.{range_of};
ghost use Rattle.tlv.specs.Sources.{source_of_byte};

use crate::bytes::Number;

// The addresses from `start` to below `end`.
#[derive(Clone, Copy, Debug, PartialEq, Eq)]
pub struct AddressRange {
    pub start: u64,
    pub end: u64,
}

impl AddressRange {
    // The range whose two numbers stand at a place.
    #[tactic(auto, using(crate::proofs::RangeLaws::range_part, crate::proofs::RangeLaws::range_rest))]
    pub fn read(s: &[u8], p: usize) -> AddressRange
        requires { p + 16 ≤ length s.now }
        ensures of_part { result ≡ range_of (take 16 (drop p s.now)) }
        ensures of_rest { result ≡ range_of (drop p s.now) }
    {
        AddressRange {
            start: u64::read(s, p),
            end: u64::read(s, p + 8),
        }
    }

    // Whether it holds an address: the Rust's `contains`, whose test that the range is valid these two imply.
    pub fn holds(self, address: u64) -> bool
        ensures { result ≡ (leb self.start address && ltb address self.end) }
    {
        self.start <= address && address < self.end
    }

    // Whether it begins and ends within another; neither need be valid, as the Rust's `contains_range` asks.
    pub fn is_inside(self, outer: AddressRange) -> bool
        ensures { result ≡ (leb outer.start self.start && leb self.end outer.end) }
    {
        outer.start <= self.start && self.end <= outer.end
    }

    // Whether it holds no address.
    pub fn is_empty(self) -> bool
        ensures { result ≡ leb self.end self.start }
    {
        self.end <= self.start
    }
}

// The number of a file in the import's file table; not one of DWARF's own file numbers.
#[derive(Clone, Copy, Debug, PartialEq, Eq)]
pub struct FileIndex(pub u32);

// A row of a function's line table.
#[derive(Clone, Copy, Debug, PartialEq, Eq)]
pub struct LineEntry {
    pub address: u64,
    pub file: FileIndex,
    pub line: u32,
    pub column: u16,
}

// The sheet that something stands in, or is remembered under.
#[derive(Clone, Copy, Debug, PartialEq, Eq)]
pub enum DebugSource {
    Main,
    Supplementary,
}

// The source whose number a byte is: 0 is the main sheet's.
impl From<u8> for DebugSource {
    ghost from_gives = { λ byte r. r ≡ source_of_byte byte };

    fn from(byte: u8) -> DebugSource
        ensures { result ≡ source_of_byte byte }
    {
        // Stays a match: the byte is a record's own, which was written by `as u8`.
        match byte {
            0 => DebugSource::Main,
            _ => DebugSource::Supplementary,
        }
    }
}
