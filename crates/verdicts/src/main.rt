// Reads sheets from standard input and writes each one's name and verdict (corpus/grammar says how they stand there).
#![tactic(auto)]

ghost use Rattle.std.specs.Prelude.{◌≤◌, length};

use std::io::{self, Read, Write};
use streams::{answer_all, next_u8, next_u32, read_full, write_refused_line};
use tlv::grammar::check_input;
use tlv::refusal::Refusal;

// The longest sheet.
const SHEET_LIMIT: usize = 300000;

// The longest name, of which one byte tells the length.
const NAME_LIMIT: usize = u8::MAX as usize;

// The name of a case, whose length is one byte, and a colon.
// Stays beside streams' write_name: that writes what is not plain by numbers, this reads a name and writes it as it is.
fn write_name(input: &mut impl Read, out: &mut impl Write, buffer: &mut [u8]) -> io::Result<()>
    requires { NAME_LIMIT ≤ length buffer.old }
{
    let n = next_u8(input)? as usize;
    let name = &mut buffer[..n];
    read_full(input, name)?;
    out.write_all(name)?;
    out.write_all(b": ")
}

// The verdict on a sheet that is lent with a line program of so many bytes.
// Stays with two words of its own, beside crate words' table: that lays a word in a buffer for C, and here two refusals alone come.
fn write_verdict(out: &mut impl Write, input: &[u8], program: usize) -> io::Result<()> {
    match check_input(input, program) {
        Ok(n) => writeln!(out, "accepted {n}"),
        Err(Refusal::PastLimit) => writeln!(out, "past limit"),
        Err(Refusal::Misshapen) => writeln!(out, "misshapen"),
        Err(refusal) => write_refused_line(out, refusal),
    }
}

// The verdict on the next sheet; false where it is longer than the buffer.
fn judge(input: &mut impl Read, out: &mut impl Write, buffer: &mut [u8]) -> io::Result<bool> {
    let program = next_u32(input)? as usize;
    let n = next_u32(input)? as usize;
    if buffer.len() < n {
        return Ok(false);
    }
    let sheet = &mut buffer[..n];
    read_full(input, sheet)?;
    write_verdict(out, sheet, program)?;
    Ok(true)
}

// The next sheet's name and the verdict on it; false where the sheet is longer than the buffer.
fn judge_next(input: &mut impl Read, out: &mut impl Write, buffer: &mut [u8]) -> io::Result<bool>
    requires { NAME_LIMIT ≤ length buffer.old }
{
    write_name(input, out, buffer)?;
    if !judge(input, out, buffer)? {
        writeln!(out, "longer than the buffer")?;
        return Ok(false);
    }
    Ok(true)
}

// Stays a `main` of its own: what it lends is an array of its own size.
fn main(rt: HostRuntime) -> io::Result<()> {
    let mut buffer = [0u8; SHEET_LIMIT];
    let mut out = io::writer(&rt);
    answer_all(&mut rt.reader(), |input| {
        judge_next(input, &mut out, &mut buffer)
    })
}
