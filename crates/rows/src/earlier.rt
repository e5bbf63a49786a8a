// The row that is in force at a function's start, where none stands there.
ghost use Rattle.std.specs.Prelude.{◌≡◌, ◌&&◌, ◌+◌, ◌*◌, ◌≤◌, ltb, length};
ghost use Rattle.std.specs.Option.{option_to_list};
ghost use Rattle.tlv.specs.Lists.{first, last};
ghost use Rattle.lines.specs.Rows.{contains, belongs, moved_to, earlier_row, starts_late};
ghost use Rattle.rows.specs.Sizes.{entry_size, sequence_range_size};
ghost use Rattle.rows.specs.Stored.{sequence_of, entries_of, lines_of, range_at, ranges_of};
ghost use Rattle.rows.specs.Selects.{unit_lines_of, RowsIn, FirstAt, covering_of, Fronted};

use crate::line::{
    ENTRY_SIZE, LINE_SIZE, LineSequenceRange, RANGE_SEQUENCE, SEQUENCE_RANGE_SIZE, SequencedLine,
    belongs_to, put_entry, sequence_at,
};
use crate::search::lower_row;
use crate::unit_lines::StoredLines;
use buffers::table::Stored;
use tlv::bytes::Number;
use tlv::model::{AddressRange, LineEntry};

// Whether the sequence at p belongs to the one that is asked for and covers an address.
// Stays bare parameters: last_before asks for another sequence, takes_row has a row's own address; for the other three a struct would be made and taken apart.
fn covers(work: &[u8], p: usize, address: u64, asked: Option<u64>) -> bool
    requires { p + sequence_range_size ≤ length work.now }
    ensures { result ≡ (belongs (sequence_of asked) (range_at work.now p).statement_sequence
        && contains (range_at work.now p).range address) }
{
    let sequence = LineSequenceRange::read(work, p);
    belongs_to(asked, sequence.statement_sequence) && sequence.range.holds(address)
}

// The number of the first sequence that covers an address and belongs to the one that is asked for.
// Stays apart from references' is_scanned: that asks by `any` of targets, this by `find` of sequences; only the walk over a table is alike.
fn first_covering(
    work: &[u8],
    sequences: Stored<LineSequenceRange>,
    address: u64,
    asked: Option<u64>,
) -> Option<usize>
    requires { sequences.base + sequences.count * sequence_range_size ≤ length work.now }
    ensures { FirstAt (λ q. belongs (sequence_of asked) q.statement_sequence && contains q.range address)
        work.now sequences.base sequences.count result }
{
    (0..sequences.count).find(
        |&i|
            requires { sequences.base + (i + 1) * sequence_range_size ≤ length work.now }
        {
            covers(
                work,
                sequences.base + i * SEQUENCE_RANGE_SIZE,
                address,
                asked,
            )
        },
    )
}

// Whether rows are none, or the first is above a start.
fn starts_late(work: &[u8], rows: Stored<LineEntry>, start: u64) -> bool
    requires { rows.base + rows.count * entry_size ≤ length work.now }
    ensures { result ≡ starts_late start (entries_of work.now rows.base rows.count) }
{
    rows.count == 0 || start < u64::read(work, rows.base)
}

impl StoredLines {
    // The first sequence that covers an address and belongs to the one that is asked for.
    fn covering_sequence(self, work: &[u8], address: u64, asked: Option<u64>) -> Option<Option<u64>>
        requires { RowsIn work.now self }
        ensures { covering_of result (first (λ q. belongs (sequence_of asked) q.statement_sequence && contains q.range address)
            (ranges_of work.now self.sequences.base self.sequences.count)) }
    {
        let i = first_covering(work, self.sequences, address, asked)?;
        let p = self.sequences.base + i * SEQUENCE_RANGE_SIZE;
        Some(sequence_at(work, p + RANGE_SEQUENCE))
    }

    // The last row below an address that belongs to the sequence that is asked for, moved to the address.
    fn last_before(self, work: &[u8], address: u64, asked: Option<u64>) -> Option<LineEntry>
        requires { RowsIn work.now self }
        ensures { option_to_list result ≡ moved_to address (last (λ x. ltb x.entry.address address && belongs (sequence_of asked) x.statement_sequence)
            (lines_of work.now self.lines.base self.lines.count)) }
    {
        // Stays a loop: std's lemmas follow `rev` of a slice, but not of a range.
        for i in (0..lower_row(work, self.lines, address)).rev() {
            let row = SequencedLine::read(work, self.lines.base + i * LINE_SIZE);
            if belongs_to(asked, row.statement_sequence) {
                return Some(LineEntry {
                    address,
                    ..row.entry
                });
            }
        }
        None
    }

    // The row that is in force at the start of a range.
    // Stays with range and sequence apart, as put_earlier, own_rows and for_range: a struct would be made in for_range and taken apart in each.
    fn earlier_row(self, work: &[u8], range: AddressRange, asked: Option<u64>) -> Option<LineEntry>
        requires { RowsIn work.now self }
        ensures { option_to_list result ≡ earlier_row (unit_lines_of work.now self) range (sequence_of asked) }
    {
        let own = self.covering_sequence(work, range.start, asked)?;
        self.last_before(work, range.start, asked.or(own))
    }

    // Puts the row in force at the start before the `count` own rows, which stand a row past the buffer's begin, where they start late.
    pub fn put_earlier(
        self,
        work: &mut [u8],
        range: AddressRange,
        asked: Option<u64>,
        count: usize,
    ) -> Stored<LineEntry>
        requires rows_in { RowsIn work.old self }
        requires count_bound { count ≤ self.lines.count }
        ensures { Fronted work.old work.new self range asked count result }
    {
        let own = Stored::new(self.buffer + ENTRY_SIZE, count);
        if !starts_late(work, own, range.start) {
            return own;
        }
        let Some(entry) = self.earlier_row(work, range, asked) else {
            return own;
        };
        put_entry(work, self.buffer, entry);
        Stored::new(self.buffer, count + 1)
    }
}
