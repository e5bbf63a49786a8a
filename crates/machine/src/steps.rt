// Instructions of the line number state machine (the Standard, 6.2.5.1 and 6.2.5.2), one method for each kind. An operand's faults are 7, 10 and 11.
ghost use Rattle.std.specs.Prelude.{◌-◌, ◌<◌, ◌≤◌, length, drop};
ghost use Rattle.machine.specs.Machine.{special, advance_pc, set_file, set_column, const_add_pc, read_unsigned, read_signed, read_half, read_standard};
ghost use Rattle.machine.specs.Steps.{opcodes_with, Executes, read_over, Turns};

use crate::machine::Emitted;
use crate::operands::read_line_sleb;
use crate::program::LineProgram;
use crate::registers::Registers;
use line_program::lines::{
    DW_LNS_ADVANCE_LINE, DW_LNS_ADVANCE_PC, DW_LNS_CONST_ADD_PC, DW_LNS_COPY,
    DW_LNS_FIXED_ADVANCE_PC, DW_LNS_NEGATE_STMT, DW_LNS_SET_BASIC_BLOCK, DW_LNS_SET_COLUMN,
    DW_LNS_SET_EPILOGUE_BEGIN, DW_LNS_SET_FILE, DW_LNS_SET_ISA, DW_LNS_SET_PROLOGUE_END,
    operand_count,
};
use line_program::operand::{read_line_uleb, skip_operands};
use tlv::bytes::Number;
use tlv::refusal::Refusal;

// The last special opcode: const_add_pc advances the address as it does.
const LAST_OPCODE: u8 = 255;

// An instruction that was executed: it appends no row, and leaves the registers and the place after it, or it appends one; after an end of sequence the
// registers begin anew.
#[derive(Clone, Copy, Debug)]
pub enum Stepped {
    Quiet { registers: Registers, next: usize },
    Row(Emitted),
}

impl LineProgram<'_> {
    // A special opcode.
    pub fn step_special(self, r: Registers, opcode: u8, next: usize) -> Result<Stepped, Refusal>
        requires { self.encoding.opcode_base ≤ opcode }
        ensures { Executes self.entry.encoding r (special (opcode - self.entry.encoding.opcode_base)) next result }
    {
        let adjusted = opcode - self.encoding.opcode_base;
        let registers = self.advance_special(self.add_special_line(r, adjusted), adjusted)?;
        Ok(Stepped::Row(Emitted::Plain { registers, next }))
    }

    // DW_LNS_advance_pc.
    fn step_advance_pc(self, r: Registers, at: usize) -> Result<Stepped, Refusal>
        ensures { Turns self.entry.encoding r self.entry.program.now at result
            (read_unsigned advance_pc (drop at self.entry.program.now)) }
    {
        let operations = read_line_uleb(self.program, at)?;
        let registers = self.encoding.advance(r, operations.value)?;
        Ok(Stepped::Quiet {
            registers,
            next: operations.next,
        })
    }

    // DW_LNS_advance_line.
    fn step_advance_line(self, r: Registers, at: usize) -> Result<Stepped, Refusal>
        ensures { Turns self.entry.encoding r self.entry.program.now at result
            (read_signed (drop at self.entry.program.now)) }
    {
        let lines = read_line_sleb(self.program, at)?;
        Ok(Stepped::Quiet {
            registers: r.add_line(lines.value),
            next: lines.next,
        })
    }

    // DW_LNS_set_file.
    // Stays apart from step_set_column: they differ in the field alone; one for both would take a closure, and a law that says which field it sets.
    fn step_set_file(self, r: Registers, at: usize) -> Result<Stepped, Refusal>
        ensures { Turns self.entry.encoding r self.entry.program.now at result
            (read_unsigned set_file (drop at self.entry.program.now)) }
    {
        let file = read_line_uleb(self.program, at)?;
        Ok(Stepped::Quiet {
            registers: Registers {
                file: file.value,
                ..r
            },
            next: file.next,
        })
    }

    // DW_LNS_set_column.
    // Stays apart from step_set_file: they differ in the field alone; one for both would take a closure, and a law that says which field it sets.
    fn step_set_column(self, r: Registers, at: usize) -> Result<Stepped, Refusal>
        ensures { Turns self.entry.encoding r self.entry.program.now at result
            (read_unsigned set_column (drop at self.entry.program.now)) }
    {
        let column = read_line_uleb(self.program, at)?;
        Ok(Stepped::Quiet {
            registers: Registers {
                column: column.value,
                ..r
            },
            next: column.next,
        })
    }

    // DW_LNS_const_add_pc.
    fn step_const_add_pc(self, r: Registers, next: usize) -> Result<Stepped, Refusal>
        ensures { Executes self.entry.encoding r const_add_pc next result }
    {
        let registers = self.advance_special(r, LAST_OPCODE - self.encoding.opcode_base)?;
        Ok(Stepped::Quiet { registers, next })
    }

    // DW_LNS_fixed_advance_pc.
    fn step_fixed_advance_pc(self, r: Registers, at: usize) -> Result<Stepped, Refusal>
        requires { at ≤ length self.program.now }
        ensures { Turns self.entry.encoding r self.entry.program.now at result
            (read_half (drop at self.entry.program.now)) }
    {
        if self.program.len() - at < 2 {
            return Err(Refusal::Cut);
        }
        let registers = r.move_by(u64::from(u16::read(self.program, at)))?;
        Ok(Stepped::Quiet {
            registers,
            next: at + 2,
        })
    }

    // n operands that nothing is done with.
    fn step_over(self, r: Registers, n: u8, at: usize) -> Result<Stepped, Refusal>
        requires { at ≤ length self.program.now }
        ensures { Turns self.entry.encoding r self.entry.program.now at result
            (read_over n (drop at self.entry.program.now)) }
    {
        let next = skip_operands(self.program, n, at)?;
        Ok(Stepped::Quiet { registers: r, next })
    }

    // A standard opcode.
    // Stays beside line_program's skip_standard, with the same opcodes: this reads the operands that each opcode has, that passes over what the header counts.
    pub fn step_standard(self, r: Registers, opcode: u8, at: usize) -> Result<Stepped, Refusal>
        requires { (0 < opcode) × (at ≤ length self.program.now) }
        ensures { Turns self.entry.encoding r self.entry.program.now at result
            (read_standard (opcodes_with self.entry.encoding self.entry.lengths.now) opcode (drop at self.entry.program.now)) }
    {
        // Stays a match: the Standard's own table.
        match opcode {
            DW_LNS_COPY => Ok(Stepped::Row(Emitted::Plain {
                registers: r,
                next: at,
            })),
            DW_LNS_ADVANCE_PC => self.step_advance_pc(r, at),
            DW_LNS_ADVANCE_LINE => self.step_advance_line(r, at),
            DW_LNS_SET_FILE => self.step_set_file(r, at),
            DW_LNS_SET_COLUMN => self.step_set_column(r, at),
            DW_LNS_CONST_ADD_PC => self.step_const_add_pc(r, at),
            DW_LNS_FIXED_ADVANCE_PC => self.step_fixed_advance_pc(r, at),
            DW_LNS_NEGATE_STMT
            | DW_LNS_SET_BASIC_BLOCK
            | DW_LNS_SET_PROLOGUE_END
            | DW_LNS_SET_EPILOGUE_BEGIN => self.step_over(r, 0, at),
            DW_LNS_SET_ISA => self.step_over(r, 1, at),
            _ => self.step_over(r, operand_count(self.lengths, opcode), at),
        }
    }
}
