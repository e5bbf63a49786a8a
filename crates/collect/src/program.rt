// The rows of a line program: the machine runs once, and each row goes to a table in the work slice, as the payload of a row field is.
ghost use Rattle.std.specs.Prelude.{◌≡◌, ◌+◌, ◌*◌, ◌≤◌, min, length};
ghost use Rattle.tlv.specs.Grammar.{row_field_size};
ghost use Rattle.machine.specs.Machine.{appended_row};
ghost use Rattle.collect.specs.Tables.{RowPut, GathersRows};
ghost use Rattle.collect.specs.Sources.{program_in};

use crate::convert::Row;
use crate::passes::CountedRows;
use crate::source::UnitProgram;
use buffers::numbers::Written;
use buffers::table::Stored;
use machine::machine::Emitted;
use machine::program::LineProgram;
use machine::registers::Registers;
use tlv::kinds::{END_ROW, PLAIN_ROW};
use tlv::refusal::Refusal;
use tlv::shapes::{ROW_COLUMN, ROW_FIELD, ROW_FILE, ROW_KIND, ROW_LINE};

// How many rows and sequences a program has, and the table of all its rows.
// Stays beside GatheredRows: this one's rows are always a table, as GathersRows says; an enum would have to be told which of its cases it is.
#[derive(Clone, Copy, Debug)]
pub struct ProgramRows {
    pub counted: CountedRows,
    pub rows: Stored<Row>,
}

// The column that a row shows: a larger one as the largest that it can.
fn shown_column(column: u64) -> u16
    ensures { result ≡ min column 65535 }
{
    column.min(u64::from(u16::MAX)) as u16
}

// Writes at p the row that registers show.
fn put_row(work: &mut [u8], p: usize, r: Registers, kind: u8)
    requires { p + row_field_size ≤ length work.old }
    ensures { RowPut work.old work.new p (appended_row r kind) }
{
    let column = shown_column(r.column);
    r.address.write(work, p);
    r.file.write(work, p + ROW_FILE);
    r.line.write(work, p + ROW_LINE);
    column.write(work, p + ROW_COLUMN);
    kind.write(work, p + ROW_KIND);
}

// Writes the rows of a program from base on; 21 before any instruction.
pub fn gather_program_rows(
    unit: UnitProgram,
    work: &mut [u8],
    base: usize,
) -> Result<ProgramRows, Refusal>
    requires { base + length unit.program.now * row_field_size ≤ length work.old }
    ensures { GathersRows (program_in unit.entry.encoding unit.entry.lengths.now unit.entry.program.now) work.old work.new base
        (length unit.entry.program.now) result }
{
    let program = LineProgram::new(unit.program, unit.lengths, unit.encoding)?;
    let mut registers = Registers::initial();
    let mut at = 0;
    let mut counted = CountedRows::default();
    let mut count = 0;
    // Stays a loop: each instruction's own length moves the place; the rows are counted as they come.
    while let Some(emitted) = program.next_row(registers, at)? {
        let to = base + count * ROW_FIELD;
        count += 1;
        match emitted {
            Emitted::Plain {
                registers: shown,
                next,
            } => {
                put_row(work, to, shown, PLAIN_ROW);
                counted.count_row();
                registers = shown;
                at = next;
            }
            Emitted::Ended {
                registers: shown,
                next,
            } => {
                put_row(work, to, shown, END_ROW);
                counted.end_sequence();
                registers = Registers::initial();
                at = next;
            }
        }
    }
    Ok(ProgramRows {
        counted,
        rows: Stored::new(base, count),
    })
}
