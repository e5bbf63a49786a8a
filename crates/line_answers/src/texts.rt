// Calls of operands, line programs and paths; false where the call is cut off or has no room.
use crate::output::write_offsets;
use line_program::lines::{OFFSET_RECORD, SEQUENCE_LEAST, scan_line_sequence_offsets};
use line_program::operand::{Operand, read_line_uleb};
use std::io::{self, Write};
use streams::{split_short_part, write_name, write_refused};
use tlv::bytes::Number;

// What stands of a line program's call before the lengths of its opcodes.
const PROGRAM_HEAD: usize = 10;

// A place (8 bytes), then the program.
pub fn answer_operand(out: &mut impl Write, call: &[u8]) -> io::Result<bool> {
    let Some((place, program)) = call.split_first_chunk() else {
        return Ok(false);
    };
    match read_line_uleb(program, u64::from_le_bytes(*place) as usize) {
        Ok(Operand { value, next }) => write!(out, "operand {value} {next}")?,
        Err(refusal) => write_refused(out, refusal)?,
    }
    Ok(true)
}

// The opcode base (1 byte), how many opcode lengths there are (1), the program's offset (8), the lengths, the program.
pub fn answer_program(out: &mut impl Write, call: &[u8], work: &mut [u8]) -> io::Result<bool> {
    let Some((head, rest)) = call.split_first_chunk::<PROGRAM_HEAD>() else {
        return Ok(false);
    };
    let Some((lengths, program)) = rest.split_at_checked(head[1] as usize) else {
        return Ok(false);
    };
    scan(out, program, lengths, head[0], u64::read(head, 2), work)
}

fn scan(
    out: &mut impl Write,
    program: &[u8],
    lengths: &[u8],
    opcode_base: u8,
    offset: u64,
    work: &mut [u8],
) -> io::Result<bool> {
    if work.len() / OFFSET_RECORD < program.len() / SEQUENCE_LEAST {
        return Ok(false);
    }
    match scan_line_sequence_offsets(program, lengths, opcode_base, offset, work, 0) {
        Ok(n) => write_offsets(out, &work[..n * OFFSET_RECORD])?,
        Err(refusal) => write_refused(out, refusal)?,
    }
    Ok(true)
}

// The path.
pub fn answer_path(out: &mut impl Write, path: &[u8]) -> io::Result<()> {
    write!(out, "path ")?;
    write_name(out, paths::path::directory_of(path))?;
    write!(out, "|")?;
    write_name(out, paths::path::basename_of(path))?;
    let absolute = paths::path::is_absolute_path(path);
    out.write_all(if absolute { b"|1" } else { b"|0" })
}

// The length of the first component (2 bytes), the first, the second.
// Stays beside `answer_rows`: the cut is streams', and what is done with the parts is each call's own.
pub fn answer_join(out: &mut impl Write, call: &[u8], work: &mut [u8]) -> io::Result<bool> {
    let Some((first, second)) = split_short_part(call) else {
        return Ok(false);
    };
    join(out, first, second, work)
}

fn join(out: &mut impl Write, first: &[u8], second: &[u8], work: &mut [u8]) -> io::Result<bool> {
    if work.len() <= first.len() {
        return Ok(false);
    }
    let n = paths::path::append_path(work, 0, 0, first);
    if work.len() <= n {
        return Ok(false);
    }
    if work.len() - n <= second.len() {
        return Ok(false);
    }
    let m = paths::path::append_path(work, 0, n, second);
    if work.len() < m {
        return Ok(false);
    }
    write!(out, "joined ")?;
    write_name(out, &work[..m])?;
    Ok(true)
}
