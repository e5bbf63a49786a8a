// Extended instructions of the line number state machine (the Standard, 6.2.5.3): each ends where its length says. Their own faults are 7 to 9 and 12.
ghost use Rattle.std.specs.Prelude.{length, drop};
ghost use Rattle.tlv.specs.Bytes.{le};
ghost use Rattle.machine.specs.Machine.{set_address, read_extended};
ghost use Rattle.machine.specs.Steps.{Executes, Turns};

use crate::machine::Emitted;
use crate::operands::address_operand;
use crate::program::LineProgram;
use crate::registers::Registers;
use crate::steps::Stepped;
use line_program::lines::{DW_LNE_END_SEQUENCE, DW_LNE_SET_ADDRESS, read_extended};
use tlv::refusal::Refusal;

impl LineProgram<'_> {
    // DW_LNE_set_address of an operand.
    fn step_set_address(self, r: Registers, operand: &[u8], next: usize) -> Result<Stepped, Refusal>
        ensures { Executes self.entry.encoding r (set_address (le operand.now)) next result }
    {
        let address = address_operand(operand).ok_or(Refusal::LineAddress)?;
        let registers = r.move_to(address)?;
        Ok(Stepped::Quiet { registers, next })
    }

    // What follows the zero byte of an extended instruction.
    pub fn step_extended(self, r: Registers, at: usize) -> Result<Stepped, Refusal>
        ensures { Turns self.entry.encoding r self.entry.program.now at result
            (read_extended (length self.entry.program.now) (drop at self.entry.program.now)) }
    {
        let instruction = read_extended(self.program, at)?;
        let next = instruction.next;
        // Stays a match: the Standard's own table.
        match instruction.opcode {
            DW_LNE_END_SEQUENCE => Ok(Stepped::Row(Emitted::Ended { registers: r, next })),
            DW_LNE_SET_ADDRESS => self.step_set_address(r, instruction.operand, next),
            _ => Ok(Stepped::Quiet { registers: r, next }),
        }
    }
}
