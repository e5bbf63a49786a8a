// What an instruction does to the registers of the line number state machine (the Standard, 6.2.2 and 6.2.5.1).
ghost use Rattle.std.specs.Prelude.{◌≡◌, ◌+◌, ◌/◌, ◌%◌, ◌^◌};
ghost use Rattle.tlv.specs.Refusals.{as_outcome};
ghost use Rattle.machine.specs.Machine.{initial, move_to, advance, add_special_line};
ghost use Rattle.machine.specs.Steps.{line_encoding};

use crate::program::LineProgram;
use tlv::refusal::Refusal;

// 2^64 - 256: it takes 256 off, modulo 2^64.
const LESS_256: u64 = 18446744073709551360;

// A line base from here on is a negative number, less than its byte by 256.
const NEGATIVE: u8 = 128;

// What a header says of advances and of its opcodes; the opcode lengths are a slice of their own.
#[derive(Clone, Copy, Debug)]
pub struct Encoding {
    pub minimum_instruction_length: u8,
    pub maximum_operations: u8,
    pub default_is_stmt: bool,
    pub line_base: u8,
    pub line_range: u8,
    pub opcode_base: u8,
}

// The registers that a row shows.
#[derive(Clone, Copy, Debug)]
pub struct Registers {
    pub address: u64,
    pub file: u64,
    pub line: u64,
    pub column: u64,
}

impl Registers {
    // The registers at the beginning of a sequence.
    // Stays a function of this name: the Standard begins file and line at 1, which no derived Default does, and `default()` would not say so.
    pub fn initial() -> Registers
        ensures { result ≡ initial }
    {
        Registers {
            address: 0,
            file: 1,
            line: 1,
            column: 0,
        }
    }

    // The registers at an address.
    pub fn move_to(self, address: u64) -> Result<Registers, Refusal>
        ensures { as_outcome result ≡ move_to address self }
    {
        if address < self.address {
            return Err(Refusal::LineAddress);
        }
        Ok(Registers { address, ..self })
    }

    // The registers n bytes further on.
    pub fn move_by(self, n: u64) -> Result<Registers, Refusal>
        ensures { as_outcome result ≡ move_to (self.address + n) self }
    {
        let address = self.address.checked_add(n).ok_or(Refusal::LineAddress)?;
        Ok(Registers { address, ..self })
    }

    // The registers with a number added to the line, modulo 2^64.
    pub fn add_line(self, n: u64) -> Registers
        ensures { result ≡ record { address = self.address; file = self.file; line = (self.line + n) % 2 ^ 64; column = self.column } }
    {
        Registers {
            line: self.line.wrapping_add(n),
            ..self
        }
    }
}

impl Encoding {
    // The registers n operations further on.
    pub fn advance(self, r: Registers, n: u64) -> Result<Registers, Refusal>
        ensures { as_outcome result ≡ advance (line_encoding self) n r }
    {
        let bytes = u64::from(self.minimum_instruction_length)
            .checked_mul(n)
            .ok_or(Refusal::LineAddress)?;
        r.move_by(bytes)
    }
}

impl LineProgram<'_> {
    // The registers as far on as the special opcode of an adjusted opcode moves them.
    pub fn advance_special(self, r: Registers, adjusted: u8) -> Result<Registers, Refusal>
        ensures { as_outcome result ≡ advance (line_encoding self.entry.encoding) (adjusted / self.entry.encoding.line_range) r }
    {
        let operations = adjusted / self.encoding.line_range;
        self.encoding.advance(r, u64::from(operations))
    }

    // The registers with the line of the special opcode of an adjusted opcode.
    pub fn add_special_line(self, r: Registers, adjusted: u8) -> Registers
        ensures { result ≡ add_special_line (line_encoding self.entry.encoding) adjusted r }
    {
        let e = self.encoding;
        let up = u64::from(e.line_base) + u64::from(adjusted % e.line_range);
        if NEGATIVE <= e.line_base {
            return r.add_line(up).add_line(LESS_256);
        }
        r.add_line(up)
    }
}
