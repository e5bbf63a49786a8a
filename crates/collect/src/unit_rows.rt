// A unit's rows, one after another: its row fields, or a table of rows in the work slice. What is written there meanwhile lies below the table.
ghost use Rattle.std.specs.Prelude.{◌≡◌, ◌+◌, ◌≤◌, length};
ghost use Rattle.tlv.specs.Grammar.{row_field_size};
ghost use Rattle.tlv.specs.Model.{row_of};
ghost use Rattle.buffers.specs.Table.{chunk};
ghost use Rattle.lines.specs.Lines.{raw_line};
ghost use Rattle.collect.specs.Converts.{raw_of};
ghost use Rattle.collect.specs.Sources.{RowsReady};
ghost use Rattle.collect.specs.Walks.{FoundAt, FindsRow};

use crate::convert::Row;
use buffers::table::Stored;
use files::index::FileNumber;
use tlv::bytes::Number;
use tlv::kinds::END_ROW;
use tlv::shapes::{ROW_COLUMN, ROW_FIELD, ROW_FILE, ROW_KIND, ROW_LINE};

// The rows that are left: those of the fields that follow a place, or those of a table.
#[derive(Clone, Copy, Debug)]
pub enum UnitRows {
    Fields { place: usize },
    Table(Stored<Row>),
}

// A row, whether it ends its sequence, and the rows behind it.
#[derive(Clone, Copy, Debug)]
pub struct FoundRow {
    pub row: Row,
    pub ends: bool,
    pub rest: UnitRows,
}

impl Row {
    // The row whose payload starts at a place, of the sequence of a number.
    pub fn read(s: &[u8], start: usize, sequence: usize) -> Row
        requires { start + row_field_size ≤ length s.now }
        ensures { raw_of result ≡ raw_line (row_of (chunk s.now start row_field_size)) sequence }
    {
        Row {
            address: u64::read(s, start),
            file: FileNumber(u64::read(s, start + ROW_FILE)),
            line: u64::read(s, start + ROW_LINE),
            column: u16::read(s, start + ROW_COLUMN),
            sequence,
        }
    }
}

impl FoundRow {
    // The same, with the rows behind it.
    fn read(s: &[u8], start: usize, sequence: usize, rest: UnitRows) -> FoundRow
        requires { start + row_field_size ≤ length s.now }
        ensures { FoundAt s.now start sequence rest result }
    {
        FoundRow {
            row: Row::read(s, start, sequence),
            ends: u8::read(s, start + ROW_KIND) == END_ROW,
            rest,
        }
    }
}

impl UnitRows {
    // The first of the rows that are left, of the sequence of a number.
    pub fn first(self, main: &[u8], work: &[u8], sequence: usize) -> Option<FoundRow>
        requires { RowsReady main.now work.now 0 self }
        ensures { FindsRow main.now work.now self sequence result }
    {
        // Stays a match: the next field and the next place of a table are found in two ways.
        match self {
            UnitRows::Fields { place } => {
                let field = access::access::next_row(main, place)?;
                let rest = UnitRows::Fields { place: field.next };
                Some(FoundRow::read(main, field.start, sequence, rest))
            }
            UnitRows::Table(table) => {
                if table.count == 0 {
                    return None;
                }
                let rest = Stored::new(table.base + ROW_FIELD, table.count - 1);
                Some(FoundRow::read(work, table.base, sequence, UnitRows::Table(rest)))
            }
        }
    }
}
