// Compacts some lists of rows, and writes of each how many rows are left and what the slice then holds.
#![tactic(auto)]

ghost use Rattle.std.specs.Prelude.{◌≤◌};

use std::io::{self, Write};
use tlv::model::{FileIndex, LineEntry};

// A code's two digits are the row's file and line; no two rows have the same column.
fn row(place: u16, code: u8) -> LineEntry {
    LineEntry {
        address: u64::from(place),
        file: FileIndex(u32::from(code / 10)),
        line: u32::from(code % 10),
        column: place,
    }
}

// Stays beside line_answers' write_entry, which writes the address in hexadecimal: one Display of LineEntry would have to choose.
fn write_row(out: &mut impl Write, row: LineEntry) -> io::Result<()> {
    write!(
        out,
        " {}:{}:{}:{}",
        row.address, row.file.0, row.line, row.column
    )
}

fn write_left(out: &mut impl Write, rows: &[LineEntry], count: usize) -> io::Result<()> {
    write!(out, "{count}")?;
    for &row in rows {
        write_row(out, row)?;
    }
    writeln!(out)
}

// Compacts the first n of the rows.
// Stays an array and a count: what the compaction leaves behind the rows is written too.
fn compact(out: &mut impl Write, mut rows: [LineEntry; 6], n: usize) -> io::Result<()>
    requires { n ≤ 6 }
{
    let count = normalize::compact_line_rows(&mut rows[..n]);
    write_left(out, &rows, count)
}

fn rows_of(codes: [u8; 6]) -> [LineEntry; 6] {
    std::array::from_fn(|i| row(i as u16, codes[i]))
}

fn show(out: &mut impl Write, name: &str, codes: [u8; 6], n: usize) -> io::Result<()>
    requires { n ≤ 6 }
{
    write!(out, "{name}: ")?;
    compact(out, rows_of(codes), n)
}

fn show_all(out: &mut impl Write) -> io::Result<()> {
    show(out, "no rows", [11, 11, 11, 11, 11, 11], 0)?;
    show(out, "one row", [11, 11, 11, 11, 11, 11], 1)?;
    show(out, "all repeat", [11, 11, 11, 11, 11, 11], 6)?;
    show(out, "none repeats", [11, 12, 13, 21, 22, 23], 6)?;
    show(out, "run at the front", [11, 11, 11, 12, 13, 14], 6)?;
    show(out, "run in the middle", [11, 12, 12, 12, 13, 14], 6)?;
    show(out, "run at the end", [11, 12, 13, 14, 14, 14], 6)?;
    show(out, "three runs", [11, 11, 12, 12, 13, 13], 6)?;
    show(out, "other line", [11, 12, 11, 12, 11, 12], 6)?;
    show(out, "other file", [11, 21, 11, 21, 11, 21], 6)?;
    show(out, "back again", [11, 11, 22, 22, 11, 11], 6)?;
    show(out, "part of the rows", [11, 11, 12, 12, 12, 12], 3)
}

fn main(rt: HostRuntime) -> io::Result<()> {
    show_all(&mut io::writer(&rt))
}
