// What answers are written as.
ghost use Rattle.std.specs.Prelude.{◌+◌, ◌*◌, ◌≤◌, length};
ghost use Rattle.rows.specs.Sizes.{entry_size};

use buffers::table::Stored;
use line_program::lines::OFFSET_RECORD;
use rows::line::ENTRY_SIZE;
use std::io::{self, Write};
use tlv::model::LineEntry;

// The numbers of a table, eight bytes each.
pub fn write_offsets(out: &mut impl Write, table: &[u8]) -> io::Result<()> {
    write!(out, "sequences")?;
    let (offsets, _) = table.as_chunks::<OFFSET_RECORD>();
    for &offset in offsets {
        write!(out, " {:x}", u64::from_le_bytes(offset))?;
    }
    Ok(())
}

// Stays beside compactions' write_row, which says why.
fn write_entry(out: &mut impl Write, entry: LineEntry) -> io::Result<()> {
    let address = entry.address;
    let file = entry.file.0;
    let line = entry.line;
    let column = entry.column;
    write!(out, " {address:x}:{file}:{line}:{column}")
}

// The rows of a table.
pub fn write_rows(out: &mut impl Write, work: &[u8], rows: Stored<LineEntry>) -> io::Result<()>
    requires { rows.base + rows.count * entry_size ≤ length work.now }
{
    for i in 0..rows.count {
        write_entry(out, rows::line::entry_at(work, rows.base + i * ENTRY_SIZE))?;
    }
    Ok(())
}
