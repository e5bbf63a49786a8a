// The payload of a unit's line header: its numbers, and behind them the lengths of its opcodes.
ghost use Rattle.std.specs.Prelude.{◌≡◌, ◌≤◌, length, drop};
ghost use Rattle.tlv.specs.Bytes.{le_at};
ghost use Rattle.collect.specs.Headers.{HeaderRead};

use line_program::lines::Header;
use tlv::bytes::Number;
use tlv::shapes::{HEADER_LEAST, HEADER_LENGTH, HEADER_OPCODES, HEADER_VERSION, HEADER_WORD};

// A payload with all of its numbers.
#[derive(Clone, Copy, Debug)]
pub struct HeaderPayload<'a> {
    pub bytes: &'a [u8],
    ghost long: { 19 ≤ length bytes.now },
}

impl<'a> HeaderPayload<'a> {
    // The header's numbers, without the opcode lengths.
    pub fn header(self) -> Header
        ensures { HeaderRead self.entry.bytes.now result }
    {
        let s = self.bytes;
        Header {
            offset: u64::read(s, 0),
            header_length: u64::read(s, HEADER_LENGTH),
            version: u8::read(s, HEADER_VERSION),
            word_size: u8::read(s, HEADER_WORD),
            opcode_base: self.opcode_base(),
        }
    }

    // The first opcode that is no standard one.
    pub fn opcode_base(self) -> u8
        ensures { result ≡ le_at 1 self.entry.bytes.now 18 }
    {
        u8::read(self.bytes, HEADER_OPCODES)
    }

    // The lengths of the standard opcodes.
    pub fn lengths(self) -> &'a [u8]
        ensures { result.now ≡ drop 19 self.entry.bytes.now }
    {
        &self.bytes[HEADER_LEAST..]
    }
}
