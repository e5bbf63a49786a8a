// Document 01's listing program: imports unit 0 of unit.main, with unit.sup and unit.line, and prints what the import gives.
#![tactic(auto)]

ghost use Rattle.std.specs.Prelude.{◌≤◌, IfOk, length};

use buffers::warning::WarningKind;
use dwarf::import::import_unit;
use dwarf::lent::Inputs;
use lookup::model::{FUNCTION_SIZE, NODE_SIZE, RANGE_SIZE, ROW_SIZE, SITE_SIZE};
use std::fs;
use std::io::{self, Write};
use std::rt::Files;
use streams::{read_full, split_short_part, write_refused_line};
use subprograms::model::{ConversionStats, Outputs};
use tlv::bytes::Number;
use tlv::fields::next_field;
use tlv::tags::{
    TRAY_FILE_TAG, TRAY_FUNCTION_TAG, TRAY_NODE_TAG, TRAY_RANGE_TAG, TRAY_ROW_TAG, TRAY_SITE_TAG,
};

// The longest sheet that is imported. Its buffer has a byte more, so that a longer file shows.
const INPUT_LIMIT: usize = 16384;

// The longest line program, likewise.
const PROGRAM_LIMIT: usize = 2048;

// Where a row's column stands in its payload in the records tray.
const ROW_COLUMN: usize = buffers::output::TRAY_COLUMN as usize;

// The work of the import, and each of its output buffers.
const WORK_SIZE: usize = 57344;

const TRAY_SIZE: usize = 32768;

// Reads the file of a name, as far as the buffer goes, and lends the bytes that came; a file that can't be opened is empty.
fn read_file<'a>(rt: &impl Files, name: &str, buffer: &'a mut [u8]) -> io::Result<&'a [u8]>
    ensures { IfOk result (λ came. length came.now ≤ length buffer.old) }
{
    let n = match fs::open(rt, name) {
        Ok(mut file) => read_full(&mut file, buffer)?,
        Err(_) => 0,
    };
    Ok(&buffer[..n])
}

fn write_text(out: &mut impl Write, s: &[u8]) -> io::Result<()> {
    out.write_all(b" ")?;
    out.write_all(s)
}

// 41: start, end, name.
// Stays a function, as the lines below: a field's parts have their own widths and bases, and each line its own order of them.
fn write_function(out: &mut impl Write, p: &[u8]) -> io::Result<()> {
    if p.len() < FUNCTION_SIZE {
        return Ok(());
    }
    out.write_all(b"function ")?;
    write!(out, "{:x} {:x}", u64::read(p, 0), u64::read(p, 8))?;
    write_text(out, &p[FUNCTION_SIZE..])?;
    writeln!(out)
}

// 42: address, file, line, column.
fn write_row(out: &mut impl Write, p: &[u8]) -> io::Result<()> {
    if p.len() < ROW_SIZE {
        return Ok(());
    }
    let (address, file) = (u64::read(p, 0), u32::read(p, 8));
    let (line, column) = (u32::read(p, 12), u16::read(p, ROW_COLUMN));
    out.write_all(b"row ")?;
    writeln!(out, "{address:x} {file} {line} {column}")
}

// 43: depth, call file, call line, name.
// Stays a function of its own, as said at `write_function`.
fn write_inline(out: &mut impl Write, p: &[u8]) -> io::Result<()> {
    if p.len() < NODE_SIZE {
        return Ok(());
    }
    let (depth, file, line) = (u16::read(p, 0), u32::read(p, 2), u32::read(p, 6));
    out.write_all(b"inline ")?;
    write!(out, "{depth} {file} {line}")?;
    write_text(out, &p[NODE_SIZE..])?;
    writeln!(out)
}

// 44: start, end.
// Stays a function of its own, as said at `write_function`.
fn write_range(out: &mut impl Write, p: &[u8]) -> io::Result<()> {
    if p.len() < RANGE_SIZE {
        return Ok(());
    }
    out.write_all(b"range ")?;
    writeln!(out, "{:x} {:x}", u64::read(p, 0), u64::read(p, 8))
}

// 45: return offset, pattern count, pattern. A site without a pattern ends after its offset.
// Stays a function of its own, as said at `write_function`.
fn write_site(out: &mut impl Write, p: &[u8]) -> io::Result<()> {
    if p.len() < SITE_SIZE {
        return Ok(());
    }
    out.write_all(b"site ")?;
    write!(out, "{:x}", u64::read(p, 0))?;
    if p[SITE_SIZE - 1] != 0 {
        write_text(out, &p[SITE_SIZE..])?;
    }
    writeln!(out)
}

// 40: directory length, directory, basename; its number in the table goes before them.
fn write_file(out: &mut impl Write, p: &[u8], number: u64) -> io::Result<()> {
    let Some((directory, name)) = split_short_part(p) else {
        return Ok(());
    };
    out.write_all(b"file ")?;
    write!(out, "{number}")?;
    write_text(out, directory)?;
    write_text(out, name)?;
    writeln!(out)
}

// The length of the two numbers of a warning.
const NUMBERS_SIZE: usize = 16;

// 46: kind, then two numbers, or of the first two kinds, malformed ranges, the reason.
// Stays a number: the byte of the tray is written as it stands, and only whether it is 1 or 2 is asked.
fn write_warning(out: &mut impl Write, p: &[u8]) -> io::Result<()> {
    let Some((&kind, rest)) = p.split_first() else {
        return Ok(());
    };
    out.write_all(b"warning ")?;
    write!(out, "{kind}")?;
    if kind <= WarningKind::StoppedRanges.number() {
        write_text(out, rest)?;
    } else if NUMBERS_SIZE <= rest.len() {
        write!(out, " {:x} {:x}", u64::read(rest, 0), u64::read(rest, 8))?;
    }
    writeln!(out)
}

// The line of a field of an output buffer.
fn write_field(out: &mut impl Write, tag: u8, p: &[u8], number: u64) -> io::Result<()> {
    // Stays a match: each tag has a line of its own form.
    match tag {
        TRAY_FILE_TAG => write_file(out, p, number),
        TRAY_FUNCTION_TAG => write_function(out, p),
        TRAY_ROW_TAG => write_row(out, p),
        TRAY_NODE_TAG => write_inline(out, p),
        TRAY_RANGE_TAG => write_range(out, p),
        TRAY_SITE_TAG => write_site(out, p),
        _ => write_warning(out, p),
    }
}

// A line for each field; the fields have numbers from `first` on.
fn write_fields(out: &mut impl Write, s: &[u8], first: u64) -> io::Result<()> {
    let mut number = first;
    let mut p = 0;
    // Stays a loop over fields: next_field says why.
    while let Some(field) = next_field(s, p) {
        write_field(out, field.tag, &s[field.start..field.next], number)?;
        number = number.saturating_add(1);
        p = field.next;
    }
    Ok(())
}

fn write_stats(out: &mut impl Write, s: ConversionStats) -> io::Result<()> {
    let (functions, rows) = (s.functions, s.line_rows);
    let (nodes, rejected) = (s.inline_nodes, s.rejected_ranges);
    out.write_all(b"stats ")?;
    writeln!(out, "{functions} {rows} {nodes} {rejected}")
}

// The first n bytes of a buffer, or all.
fn front(buffer: &[u8], n: usize) -> &[u8] {
    &buffer[..n.min(buffer.len())]
}

// Imports unit 0, and lists what that gives.
fn list(out: &mut impl Write, inputs: Inputs) -> io::Result<()> {
    let mut work = [0u8; WORK_SIZE];
    let mut records = [0u8; TRAY_SIZE];
    let mut files = [0u8; TRAY_SIZE];
    let mut warnings = [0u8; TRAY_SIZE];
    let mut outputs = Outputs {
        records: &mut records,
        files: &mut files,
        warnings: &mut warnings,
    };
    match import_unit(inputs, 0, true, true, 1, &mut work, &mut outputs) {
        Err(refusal) => write_refused_line(out, refusal),
        Ok(done) => {
            let written = done.lengths;
            write_fields(out, front(outputs.records, written.records), 0)?;
            write_fields(out, front(outputs.files, written.files), 1)?;
            write_fields(out, front(outputs.warnings, written.warnings), 0)?;
            write_stats(out, done.stats)
        }
    }
}

// Reads the three files of the folder, and lists what their import gives. There is no file for a list section and none for an address table: both are empty.
fn list_files(rt: &impl Files, out: &mut impl Write) -> io::Result<()> {
    let mut main = [0u8; INPUT_LIMIT + 1];
    let mut supplementary = [0u8; INPUT_LIMIT + 1];
    let mut program = [0u8; PROGRAM_LIMIT + 1];
    let main = read_file(rt, "unit.main", &mut main)?;
    let supplementary = read_file(rt, "unit.sup", &mut supplementary)?;
    let program = read_file(rt, "unit.line", &mut program)?;
    if INPUT_LIMIT < main.len()
        || INPUT_LIMIT < supplementary.len()
        || PROGRAM_LIMIT < program.len()
    {
        return out.write_all(b"oversize\n");
    }
    list(out, Inputs::new(main, supplementary, program, b"", b""))
}

fn main(rt: HostRuntime) -> io::Result<()> {
    list_files(&rt, &mut io::writer(&rt))
}
