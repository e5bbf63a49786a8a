// Line programs (the Rust's convert/dwarf/lines.rs): operands, skipping, where sequences begin. The faults are document 01's refusals 7 to 12.
ghost use Rattle.std.specs.Prelude.{◌≡◌, ◌+◌, ◌*◌, ◌-◌, ◌/◌, ◌≤◌, ◌<◌, [], length, get_or, drop};
ghost use Rattle.line_program.specs.Program.{skip_operands, extended, skip};
ghost use Rattle.line_program.specs.Program.{scan_line_sequence_offsets, initial_length, version_bytes, program_offset, line_sequence_offsets};
ghost use Rattle.line_program.specs.Scan.{ReadsExtended, Passes, SkipsTo, Scanned, OffsetIs, kinds_by, header_with, offset_record, sequence_least};

use crate::operand::{Skipped, read_line_uleb, skip_counted, take_line_bytes};
use buffers::numbers::Written;
use tlv::refusal::Refusal;

// Bytes of an offset in the table, and the fewest bytes of a program that end a sequence.
pub const OFFSET_RECORD: usize = 8;

pub const SEQUENCE_LEAST: usize = 3;

// What a line header says of its place and its opcodes; the opcode lengths are a slice of their own.
// Stays without its opcode lengths, as the functions below: one call alone takes both of a payload, and skip_standard takes the lengths alone.
#[derive(Clone, Copy, Debug, PartialEq, Eq, Hash)]
pub struct Header {
    pub offset: u64,
    pub header_length: u64,
    pub version: u8,
    pub word_size: u8,
    pub opcode_base: u8,
}

// The standard opcodes, by the Standard's names.
// Stays numbers, no enum: a byte means one of these only below the base of its header, and `match` takes it as it is.
pub const DW_LNS_COPY: u8 = 1;

pub const DW_LNS_ADVANCE_PC: u8 = 2;

pub const DW_LNS_ADVANCE_LINE: u8 = 3;

pub const DW_LNS_SET_FILE: u8 = 4;

pub const DW_LNS_SET_COLUMN: u8 = 5;

pub const DW_LNS_NEGATE_STMT: u8 = 6;

pub const DW_LNS_SET_BASIC_BLOCK: u8 = 7;

pub const DW_LNS_CONST_ADD_PC: u8 = 8;

pub const DW_LNS_FIXED_ADVANCE_PC: u8 = 9;

pub const DW_LNS_SET_PROLOGUE_END: u8 = 10;

pub const DW_LNS_SET_EPILOGUE_BEGIN: u8 = 11;

pub const DW_LNS_SET_ISA: u8 = 12;

// The opcode of an extended instruction that ends a sequence, and of one that sets the address, by the Standard's names.
pub const DW_LNE_END_SEQUENCE: u8 = 1;

pub const DW_LNE_SET_ADDRESS: u8 = 2;

// An extended instruction: its opcode, its operand and the place after it.
#[derive(Clone, Copy, Debug, PartialEq, Eq, Hash)]
pub struct Extended<'a> {
    pub opcode: u8,
    pub operand: &'a [u8],
    pub next: usize,
}

// What follows the zero byte of an extended instruction: a length, and so many bytes, of which the first is the opcode.
pub fn read_extended(program: &[u8], at: usize) -> Result<Extended<'_>, Refusal>
    ensures { ReadsExtended program.now at result }
{
    let length = read_line_uleb(program, at)?;
    if length.value == 0 {
        return Err(Refusal::ZeroExtended);
    }
    if program.len() <= length.next {
        return Err(Refusal::CutExtended);
    }
    let opcode = program[length.next];
    let from = length.next + 1;
    let next = take_line_bytes(program, length.value - 1, from)?;
    Ok(Extended {
        opcode,
        operand: &program[from..next],
        next,
    })
}

// Passes over what follows the zero byte of an extended instruction.
fn skip_extended(program: &[u8], at: usize) -> Result<Skipped, Refusal>
    ensures { Passes program.now at result (extended (length program.now) (drop at program.now)) }
{
    let instruction = read_extended(program, at)?;
    if instruction.opcode == DW_LNE_END_SEQUENCE {
        return Ok(Skipped::Ended(instruction.next));
    }
    Ok(Skipped::To(instruction.next))
}

// How many operands a header gives to an opcode: none to one past its table.
pub fn operand_count(lengths: &[u8], opcode: u8) -> u8
    requires { 0 < opcode }
    ensures { result ≡ get_or lengths.now (opcode - 1) 0 }
{
    lengths.get((opcode - 1) as usize).copied().unwrap_or(0)
}

// Passes over what follows a standard opcode.
// Stays beside machine's step_standard, with the same opcodes: this passes over what the header counts, that reads the operands that each opcode has.
fn skip_standard(program: &[u8], lengths: &[u8], opcode: u8, at: usize) -> Result<usize, Refusal>
    requires { (at ≤ length program.now) × (0 < opcode) }
    ensures { SkipsTo program.now at result (skip_operands (kinds_by lengths.now opcode) (drop at program.now)) }
{
    // Stays a match: the Standard's own table.
    match opcode {
        DW_LNS_FIXED_ADVANCE_PC => take_line_bytes(program, 2, at),
        DW_LNS_COPY
        | DW_LNS_NEGATE_STMT
        | DW_LNS_SET_BASIC_BLOCK
        | DW_LNS_CONST_ADD_PC
        | DW_LNS_SET_PROLOGUE_END
        | DW_LNS_SET_EPILOGUE_BEGIN => Ok(at),
        _ => skip_counted(program, opcode, operand_count(lengths, opcode), at),
    }
}

// Passes over the instruction at a place.
// Stays with program, lengths and opcode base apart, as those below and line_answers' scan: skip_standard and the operands take fewer of them.
pub fn skip_instruction(
    program: &[u8],
    lengths: &[u8],
    opcode_base: u8,
    at: usize,
) -> Result<Skipped, Refusal>
    requires { at < length program.now }
    ensures { Passes program.now (at + 1) result
        (skip (record { base = opcode_base; lengths = lengths.now }) (length program.now) (get_or program.now at 0)
        (drop (at + 1) program.now)) }
{
    let opcode = program[at];
    let next = at + 1;
    if opcode == 0 {
        return skip_extended(program, next);
    }
    if opcode < opcode_base {
        let past = skip_standard(program, lengths, opcode, next)?;
        return Ok(Skipped::To(past));
    }
    Ok(Skipped::To(next))
}

// Writes where each sequence of a program begins, eight bytes each, from base on.
// Stays a count, as line_sequence_offsets: whoever gave the place makes the `Stored`, and the contract says the count alone. Stays a clause, as in
// line_sequence_offsets and scan_program: it is of the lent slice, which is written.
pub fn scan_line_sequence_offsets(
    program: &[u8],
    lengths: &[u8],
    opcode_base: u8,
    program_offset: u64,
    work: &mut [u8],
    base: usize,
) -> Result<usize, Refusal>
    requires { base + length program.now / sequence_least * offset_record ≤ length work.old }
    ensures { Scanned program.now work.old work.new base result
        (scan_line_sequence_offsets (record { base = opcode_base; lengths = lengths.now }) program_offset program.now) }
{
    let mut p: usize = 0;
    let mut n: usize = 0;
    let mut from = program_offset;
    // Stays a loop: each instruction's own length moves the place; the sequences are counted as they end.
    while p < program.len() {
        match skip_instruction(program, lengths, opcode_base, p)? {
            Skipped::To(next) => {
                p = next;
            }
            Skipped::Ended(next) => {
                from.write(work, base + n * OFFSET_RECORD);
                from = program_offset
                    .checked_add(next as u64)
                    .ok_or(Refusal::Overflow)?;
                n += 1;
                p = next;
            }
        }
    }
    Ok(n)
}

impl Header {
    // Where its program begins; none past the last number.
    pub fn program_offset(self) -> Option<u64>
        ensures { OffsetIs result (program_offset (header_with self [])) }
    {
        let sizes = version_bytes(self.version) + u64::from(self.word_size);
        let fixed = initial_length(self.word_size) + 2 + sizes;
        self.offset
            .checked_add(fixed)?
            .checked_add(self.header_length)
    }
}

// How many bytes a header's own length takes.
#[tactic(auto, unfolding(crate::specs::Program::initial_length))]
fn initial_length(word_size: u8) -> u64
    ensures { (result ≡ initial_length word_size) × (result ≤ 12) }
{
    if word_size == 8 { 12 } else { 4 }
}

// The sizes of addresses and selectors, which a header has from version 5 on.
#[tactic(auto, unfolding(crate::specs::Program::version_bytes))]
fn version_bytes(version: u8) -> u64
    ensures { (result ≡ version_bytes version) × (result ≤ 2) }
{
    if version >= 5 { 2 } else { 0 }
}

// Writes where each sequence of the program of a header begins, eight bytes each, from base on.
pub fn line_sequence_offsets(
    program: &[u8],
    lengths: &[u8],
    header: Header,
    work: &mut [u8],
    base: usize,
) -> Result<usize, Refusal>
    requires { base + length program.now / sequence_least * offset_record ≤ length work.old }
    ensures { Scanned program.now work.old work.new base result
        (line_sequence_offsets (header_with header lengths.now) program.now) }
{
    let offset = header.program_offset().ok_or(Refusal::Overflow)?;
    scan_line_sequence_offsets(program, lengths, header.opcode_base, offset, work, base)
}
