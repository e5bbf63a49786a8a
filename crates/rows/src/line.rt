// Rows and sequences as records in the work slice: how one is read and written.
ghost use Rattle.std.specs.Prelude.{◌≡◌, ◌+◌, ◌≤◌, length};
ghost use Rattle.buffers.specs.Table.{chunk};
ghost use Rattle.lines.specs.Rows.{belongs};
ghost use Rattle.rows.specs.Sizes.{entry_size, line_size, sequence_range_size, sequence_size};
ghost use Rattle.rows.specs.Stored.{sequence_of, stored_sequence, entry_of, line_at, range_at, PutEntry, PutLine, PutSequenceRange};

use buffers::numbers::{Written, put_option, read_option};
use buffers::table::put_range_at;
use tlv::bytes::Number;
use tlv::model::{AddressRange, FileIndex, LineEntry};

// A unit's row: a function's row, and the offset at which the instructions of its sequence begin, where that is known.
#[derive(Clone, Copy, Debug)]
pub struct SequencedLine {
    pub entry: LineEntry,
    pub statement_sequence: Option<u64>,
}

// The addresses of a sequence, and the offset at which its instructions begin, where that is known.
#[derive(Clone, Copy, Debug)]
pub struct LineSequenceRange {
    pub range: AddressRange,
    pub statement_sequence: Option<u64>,
}

// The sizes of records. A sequence's offset: whether there is one, 1 byte, and the offset, 8.
pub const SEQUENCE_SIZE: usize = 9;

// A function's row: the address 8, the file 4, the line 4, the column 2. Where the column stands, and the size.
const COLUMN: usize = 16;

pub const ENTRY_SIZE: usize = COLUMN + 2;

// A unit's row: a function's row, and its sequence.
pub const LINE_SIZE: usize = ENTRY_SIZE + SEQUENCE_SIZE;

// Where the offset stands in the record of a sequence, behind its start and end.
pub const RANGE_SEQUENCE: usize = 16;

pub const SEQUENCE_RANGE_SIZE: usize = RANGE_SEQUENCE + SEQUENCE_SIZE;

// A unit's row, and as much again while rows are sorted.
pub const ROW_ROOM: usize = 2 * LINE_SIZE;

// Whether a row or a sequence is of the sequence that is asked for; it is, where none is.
pub fn belongs_to(asked: Option<u64>, own: Option<u64>) -> bool
    ensures { result ≡ belongs (sequence_of asked) (sequence_of own) }
{
    asked.is_none() || asked == own
}

// The sequence at p: the offset at which its instructions begin, where that is known.
// Stays a function, as the three below: a search or a test reads one part of many records; LineEntry is tlv's, so only a trait could give it a method here.
pub fn sequence_at(work: &[u8], p: usize) -> Option<u64>
    requires { p + sequence_size ≤ length work.now }
    ensures { sequence_of result ≡ stored_sequence work.now p }
{
    read_option(work, p)
}

// The address of the row at p.
// Stays a clause: it is of the place of one record, and a type of the slice and that place would be made anew for each record that is read.
pub fn address_at(work: &[u8], p: usize) -> u64
    requires { p + line_size ≤ length work.now }
    ensures { result ≡ (line_at work.now p).entry.address }
{
    u64::read(work, p)
}

// The function's row at p.
pub fn entry_at(work: &[u8], p: usize) -> LineEntry
    requires { p + entry_size ≤ length work.now }
    ensures { result ≡ entry_of (chunk work.now p entry_size) }
{
    LineEntry {
        address: u64::read(work, p),
        file: FileIndex(u32::read(work, p + 8)),
        line: u32::read(work, p + 12),
        column: u16::read(work, p + COLUMN),
    }
}

pub fn put_entry(work: &mut [u8], p: usize, entry: LineEntry)
    requires { p + entry_size ≤ length work.old }
    ensures { PutEntry work.old work.new p entry }
{
    entry.address.write(work, p);
    entry.file.0.write(work, p + 8);
    entry.line.write(work, p + 12);
    entry.column.write(work, p + COLUMN);
}

impl SequencedLine {
    // The row is put at p: its parts one after the other.
    // Stays beside the writes and reads of other records, as do this `read` and a sequence's two: each has fields of its own.
    pub fn write(self, work: &mut [u8], p: usize)
        requires { p + line_size ≤ length work.old }
        ensures { PutLine work.old work.new p self.entry self.statement_sequence }
    {
        put_entry(work, p, self.entry);
        put_option(work, p + ENTRY_SIZE, self.statement_sequence);
    }

    // The row at p, with its sequence.
    pub fn read(work: &[u8], p: usize) -> SequencedLine
        requires { p + line_size ≤ length work.now }
        ensures entry { result.entry ≡ (line_at work.now p).entry }
        ensures sequence { sequence_of result.statement_sequence ≡ (line_at work.now p).statement_sequence }
    {
        SequencedLine {
            entry: entry_at(work, p),
            statement_sequence: sequence_at(work, p + ENTRY_SIZE),
        }
    }
}

impl LineSequenceRange {
    // The sequence is put at p: its addresses, and then its offset.
    pub fn write(self, work: &mut [u8], p: usize)
        requires { p + sequence_range_size ≤ length work.old }
        ensures { PutSequenceRange work.old work.new p self.range self.statement_sequence }
    {
        put_range_at(work, p, self.range);
        put_option(work, p + RANGE_SEQUENCE, self.statement_sequence);
    }

    // The sequence at p, with its addresses.
    pub fn read(work: &[u8], p: usize) -> LineSequenceRange
        requires { p + sequence_range_size ≤ length work.now }
        ensures range { result.range ≡ (range_at work.now p).range }
        ensures sequence { sequence_of result.statement_sequence ≡ (range_at work.now p).statement_sequence }
    {
        LineSequenceRange {
            range: AddressRange::read(work, p),
            statement_sequence: sequence_at(work, p + RANGE_SEQUENCE),
        }
    }
}
