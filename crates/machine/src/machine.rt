// The line number state machine (the Standard, 6.2.5): one row of a line program after the other.
ghost use Rattle.std.specs.Prelude.{◌+◌, ◌<◌, ◌≤◌, length};
ghost use Rattle.machine.specs.Steps.{machine_of, read_at, Turns, Emits};
ghost use Rattle.machine.specs.Programs.{ProgramMade};

use crate::program::LineProgram;
use crate::registers::{Encoding, Registers};
use crate::steps::Stepped;
use tlv::refusal::Refusal;

// A row of a program, plain or an end of sequence, with the registers that it shows and the place after its instruction.
// Stays an enum and no flag beside registers and place, as line_program's Skipped: whoever takes the row says what an end means to it.
#[derive(Clone, Copy, Debug)]
pub enum Emitted {
    Plain { registers: Registers, next: usize },
    Ended { registers: Registers, next: usize },
}

impl<'a> LineProgram<'a> {
    // A program whose line range is not 0 and whose instructions have one operation each; 21 of any other.
    pub fn new(
        program: &'a [u8],
        lengths: &'a [u8],
        encoding: Encoding,
    ) -> Result<LineProgram<'a>, Refusal>
        ensures { ProgramMade program.now lengths.now encoding result }
    {
        if encoding.line_range == 0 || encoding.maximum_operations != 1 {
            return Err(Refusal::LineEncoding);
        }
        Ok(LineProgram {
            program,
            lengths,
            encoding,
        })
    }
}

impl LineProgram<'_> {
    // The instruction at a place.
    fn step(self, r: Registers, at: usize) -> Result<Stepped, Refusal>
        requires { at < length self.program.now }
        ensures { Turns self.entry.encoding r self.entry.program.now (at + 1) result
            (read_at self.entry.encoding self.entry.lengths.now self.entry.program.now at) }
    {
        let opcode = self.program[at];
        let next = at + 1;
        if opcode == 0 {
            return self.step_extended(r, next);
        }
        if opcode < self.encoding.opcode_base {
            return self.step_standard(r, opcode, next);
        }
        self.step_special(r, opcode, next)
    }

    // The next row of the program, from a place on; none at the program's end.
    // Stays a clause, as those in steps.rt: the place moves with each instruction, so a type of a program and a place would be made anew each time.
    pub fn next_row(self, r: Registers, at: usize) -> Result<Option<Emitted>, Refusal>
        requires { at ≤ length self.program.now }
        ensures { Emits (machine_of self.entry.encoding self.entry.lengths.now (length self.entry.program.now))
            self.entry.program.now r at result }
    {
        let mut registers = r;
        let mut p = at;
        // Stays a loop: each instruction's own length moves the place.
        while p < self.program.len() {
            match self.step(registers, p)? {
                Stepped::Quiet {
                    registers: moved,
                    next,
                } => {
                    registers = moved;
                    p = next;
                }
                Stepped::Row(emitted) => return Ok(Some(emitted)),
            }
        }
        Ok(None)
    }
}
