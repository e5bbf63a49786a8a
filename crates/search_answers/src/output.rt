// What answers are written as.
use declarations::declaring::Declared;
use references::trails::Counted;
use std::io::{self, Write};
use streams::{write_name, write_refused, write_refused_line};
use tlv::refusal::Refusal;

pub fn end_line(out: &mut impl Write) -> io::Result<()> {
    writeln!(out)
}

// How many entries were read.
fn write_reads(out: &mut impl Write, reads: usize) -> io::Result<()> {
    write!(out, " {reads}")
}

// What a name search has found, or its refusal.
pub fn write_found(out: &mut impl Write, found: Counted<Result<&[u8], Refusal>>) -> io::Result<()> {
    match found.answer {
        Ok(name) => {
            write!(out, "name ")?;
            write_name(out, name)?;
        }
        Err(refusal) => {
            write_refused(out, refusal)?;
        }
    }
    write_reads(out, found.reads)
}

// What a declaration search has found, or its refusal.
pub fn write_declared(
    out: &mut impl Write,
    declared: Counted<Result<Declared, Refusal>>,
) -> io::Result<()> {
    match declared.answer {
        Ok(declared) => {
            match declared.found {
                Some(found) => {
                    let number = found.file.0;
                    let line = found.line;
                    write!(out, "line {number} {line}")?;
                }
                None => {
                    write!(out, "no line")?;
                }
            }
        }
        Err(refusal) => {
            write_refused(out, refusal)?;
        }
    }
    write_reads(out, declared.reads)
}

// The answer to sheets of which one is refused: a line of its own.
pub fn answer_refused(out: &mut impl Write, refusal: Refusal) -> io::Result<bool> {
    write_refused_line(out, refusal)?;
    Ok(true)
}
