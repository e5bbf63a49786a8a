// The rows of a function out of its unit's (the Rust's UnitLines::for_range).
ghost use Rattle.std.specs.Prelude.{◌≡◌, cond, ◌&&◌, ◌+◌, ◌*◌, ◌≤◌, leb, length};
ghost use Rattle.std.proofs.Math.Option.{none};
ghost use Rattle.lines.specs.Lines.{same_sequence};
ghost use Rattle.lines.specs.Rows.{belongs, sequence_exists};
ghost use Rattle.rows.specs.Sizes.{entry_size, line_size, sequence_range_size};
ghost use Rattle.rows.specs.Stored.{sequence_of, stored_sequence, range_at};
ghost use Rattle.rows.specs.Selects.{unit_lines_of, RowsIn, RowsBelow, Owned, ForRange};

use crate::line::{
    ENTRY_SIZE, LINE_SIZE, LineSequenceRange, RANGE_SEQUENCE, SEQUENCE_RANGE_SIZE, SequencedLine,
    address_at, belongs_to, sequence_at,
};
use crate::normalize::compact_line_rows;
use crate::search::lower_row;
use buffers::table::{Stored, copy_record};
use tlv::model::{AddressRange, LineEntry};

// Where a unit's sorted rows and its sequences stand in the work slice, and where the rows of a function are put.
#[derive(Clone, Copy, Debug)]
pub struct StoredLines {
    pub lines: Stored<SequencedLine>,
    pub sequences: Stored<LineSequenceRange>,
    pub buffer: usize,
}

// The rows of a function in the work slice; `invalid`: it asked for a sequence that does not exist, and has rows all the same.
// Stays a flag: the rows stand either way, and an Option of the sequence to warn of would say the caller's `requested` again.
#[derive(Clone, Copy, Debug)]
pub struct FunctionRows {
    pub rows: Stored<LineEntry>,
    pub invalid: bool,
}

// How many own rows a range has, and the place in the table of the first row at or past its end, or the table's length.
// Stays a count: own_rows is lent the place, and put_earlier knows it by the buffer.
#[derive(Clone, Copy, Debug)]
pub struct OwnRows {
    pub count: usize,
    pub past: usize,
}

// Whether the row at p, which has an address, is at or past a start and belongs to the sequence that is asked for.
fn takes_row(work: &[u8], p: usize, address: u64, start: u64, asked: Option<u64>) -> bool
    requires { p + line_size ≤ length work.now }
    ensures { result ≡ (leb start address && belongs (sequence_of asked) (stored_sequence work.now (p + entry_size))) }
{
    start <= address && belongs_to(asked, sequence_at(work, p + ENTRY_SIZE))
}

// Whether the sequence at p is the one that is asked for.
fn is_sequence(work: &[u8], p: usize, requested: Option<u64>) -> bool
    requires { p + sequence_range_size ≤ length work.now }
    ensures { result ≡ same_sequence (sequence_of requested) (range_at work.now p).statement_sequence }
{
    requested == sequence_at(work, p + RANGE_SEQUENCE)
}

// The sequence that is asked for, where it exists.
fn selected_sequence(exists: bool, requested: Option<u64>) -> Option<u64>
    ensures { sequence_of result ≡ cond exists (sequence_of requested) none }
{
    if exists { requested } else { None }
}

impl StoredLines {
    // Copies the rows of a range, of the sequence that is asked for, to `to`: a loop from the front of the table that ends at the first row at or past the
    // range's end. The first `below` rows are known to lie below the range, so the loop passes over them at once; 0 is always right.
    pub fn own_rows(
        self,
        work: &mut [u8],
        range: AddressRange,
        asked: Option<u64>,
        to: usize,
        below: usize,
    ) -> OwnRows
        requires rows_below_target { self.lines.base + self.lines.count * line_size ≤ to }
        requires target_within { to + self.lines.count * entry_size ≤ length work.old }
        requires below_range { RowsBelow work.old self range below }
        ensures { Owned work.old work.new self range asked to result }
    {
        let mut count = 0;
        // Stays a loop: rows are copied and counted up to the first past the range, in the slice that they are read from.
        for i in below..self.lines.count {
            let p = self.lines.base + i * LINE_SIZE;
            let address = address_at(work, p);
            if range.end <= address {
                return OwnRows { count, past: i };
            }
            if takes_row(work, p, address, range.start, asked) {
                copy_record(work, p, to + count * ENTRY_SIZE, ENTRY_SIZE);
                count += 1;
            }
        }
        OwnRows {
            count,
            past: self.lines.count,
        }
    }

    // How many rows at the front of a unit's sorted table lie below a range.
    fn rows_below(self, work: &[u8], range: AddressRange) -> usize
        requires { RowsIn work.now self }
        ensures { RowsBelow work.now self range result }
    {
        if range.end < range.start {
            return 0;
        }
        lower_row(work, self.lines, range.start)
    }

    // Whether a sequence that is asked for exists.
    pub fn sequence_exists(self, work: &[u8], requested: Option<u64>) -> bool
        requires { RowsIn work.now self }
        ensures { result ≡ sequence_exists (unit_lines_of work.now self) (sequence_of requested) }
    {
        if requested.is_none() {
            return true;
        }
        let sequences = self.sequences;
        (0..sequences.count).any(
            |i|
                requires { sequences.base + (i + 1) * sequence_range_size ≤ length work.now }
            { is_sequence(work, sequences.base + i * SEQUENCE_RANGE_SIZE, requested) },
        )
    }

    // The rows that a function takes.
    pub fn for_range(
        self,
        work: &mut [u8],
        range: AddressRange,
        requested: Option<u64>,
    ) -> FunctionRows
        requires { RowsIn work.old self }
        ensures { ForRange work.old work.new self range requested result }
    {
        let exists = self.sequence_exists(work, requested);
        let asked = selected_sequence(exists, requested);
        let below = self.rows_below(work, range);
        let own = self.own_rows(work, range, asked, self.buffer + ENTRY_SIZE, below);
        let fronted = self.put_earlier(work, range, asked, own.count);
        let left = compact_line_rows(work, fronted);
        FunctionRows {
            rows: Stored::new(fronted.base, left),
            invalid: !exists && left != 0,
        }
    }
}
