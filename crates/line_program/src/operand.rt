// Operands of line programs.
ghost use Rattle.std.specs.Prelude.{◌≡◌, ℕ, Bool, List, ◌≤◌, length, drop, replicate};
ghost use Rattle.line_program.specs.Standard.{OperandKind, unsigned, signed};
ghost use Rattle.line_program.specs.Program.{is_sign, counted_kinds, skip_operand, skip_operands, take_line_bytes};
ghost use Rattle.line_program.specs.Passing.{pass_within, fits_unsigned};
ghost use Rattle.line_program.specs.PassLaws.{unsigned_passes, signed_passes};
ghost use Rattle.line_program.specs.Scan.{Reads, SkipsTo};

use crate::lines::DW_LNS_ADVANCE_LINE;
use tlv::refusal::Refusal;

// An operand that was read: its value and the place after it.
#[derive(Clone, Copy, Debug, PartialEq, Eq, Hash)]
pub struct Operand {
    pub value: u64,
    pub next: usize,
}

// An instruction that was passed over, with the place after it; it may have ended a sequence.
// Stays an enum and no place with a bool: whoever takes the place says what an end means to it.
#[derive(Clone, Copy, Debug, PartialEq, Eq, Hash)]
pub enum Skipped {
    To(usize),
    Ended(usize),
}

// The unsigned operand at a place.
// Stays beside machine's read_line_sleb: the tenth byte and the last one's value differ, so one for both would take a trait of two with laws.
pub fn read_line_uleb(program: &[u8], at: usize) -> Result<Operand, Refusal>
    ensures { Reads program.now at result }
{
    let mut value: u64 = 0;
    let mut scale: u64 = 1;
    let mut left: u64 = 9;
    let mut p = at;
    // Stays a loop: a byte says whether another follows, and the tenth has a rule of its own.
    loop {
        if program.len() <= p {
            return Err(Refusal::Cut);
        }
        let byte = u64::from(program[p]);
        p += 1;
        if left == 0 {
            if 1 < byte % 128 {
                return Err(Refusal::Overflowing);
            }
            if byte < 128 {
                return Ok(Operand {
                    value: value + byte * scale,
                    next: p,
                });
            }
            return Err(Refusal::Overlong);
        }
        if byte < 128 {
            return Ok(Operand {
                value: value + byte * scale,
                next: p,
            });
        }
        value += byte % 128 * scale;
        scale *= 128;
        left -= 1;
    }
}

// Which low seven bits the tenth byte of an operand may have: those that 64 bits hold.
trait TenthByte {
    ghost kind: { OperandKind };

    ghost fits: { ℕ → Bool };

    fn fits(bits: u8) -> bool
        ensures { result ≡ fits bits };

    ghost passes: { (s : List ℕ) → skip_operand kind s ≡ pass_within fits 9 s };
}

struct Unsigned;

impl TenthByte for Unsigned {
    ghost kind = { unsigned };

    ghost fits = { fits_unsigned };

    ghost passes = { unsigned_passes };

    fn fits(bits: u8) -> bool {
        bits <= 1
    }
}

// The low bits are bit 63 and the sign above it, all alike.
struct Signed;

impl TenthByte for Signed {
    ghost kind = { signed };

    ghost fits = { is_sign };

    ghost passes = { signed_passes };

    fn fits(bits: u8) -> bool {
        matches!(bits, 0 | 0x7f)
    }
}

// Passes over the operand at a place.
// Stays beside read_line_uleb: it passes over both kinds of operand by one trait; the value of each is made by a rule of its own.
fn skip_operand<B: TenthByte>(program: &[u8], at: usize) -> Result<usize, Refusal>
    ensures { SkipsTo program.now at result (skip_operand B.kind (drop at program.now)) }
{
    let mut left: u64 = 9;
    let mut p = at;
    // Stays a loop: a byte says whether another follows, and the tenth has a rule of its own.
    loop {
        if program.len() <= p {
            return Err(Refusal::Cut);
        }
        let byte = program[p];
        p += 1;
        if left == 0 {
            if !B::fits(byte % 128) {
                return Err(Refusal::Overflowing);
            }
            if byte < 128 {
                return Ok(p);
            }
            return Err(Refusal::Overlong);
        }
        if byte < 128 {
            return Ok(p);
        }
        left -= 1;
    }
}

// Passes over n unsigned operands.
// Stays a clause: the place moves with each instruction, so a type of a program and a place in it would be made anew at each step.
pub fn skip_operands(program: &[u8], n: u8, at: usize) -> Result<usize, Refusal>
    requires { at ≤ length program.now }
    ensures { SkipsTo program.now at result (skip_operands (replicate n unsigned) (drop at program.now)) }
{
    let mut p = at;
    for _ in 0..n {
        p = skip_operand::<Unsigned>(program, p)?;
    }
    Ok(p)
}

// Passes over the n operands that a header counts for an opcode: the single one of advance_line is signed, all others are unsigned.
// Stays a clause: the place moves with each instruction, so a type of a program and a place in it would be made anew at each step.
pub fn skip_counted(program: &[u8], opcode: u8, n: u8, at: usize) -> Result<usize, Refusal>
    requires { at ≤ length program.now }
    ensures { SkipsTo program.now at result (skip_operands (counted_kinds opcode n) (drop at program.now)) }
{
    if opcode == DW_LNS_ADVANCE_LINE && n == 1 {
        return skip_operand::<Signed>(program, at);
    }
    skip_operands(program, n, at)
}

// Passes over n bytes from a place on; an end past the last number is told from one past the program.
// Stays a clause: the place moves with each instruction, so a type of a program and a place in it would be made anew at each step.
pub fn take_line_bytes(program: &[u8], n: u64, at: usize) -> Result<usize, Refusal>
    requires { at ≤ length program.now }
    ensures { SkipsTo program.now at result (take_line_bytes (length program.now) n (drop at program.now)) }
{
    let end = (at as u64).checked_add(n).ok_or(Refusal::Overflow)?;
    if (program.len() as u64) < end {
        return Err(Refusal::Cut);
    }
    Ok(end as usize)
}
