// A unit's row fields counted, and the record of one of its sequences.
ghost use Rattle.std.specs.Prelude.{◌≡◌, ◌+◌, ◌*◌, ◌^◌, ◌≤◌, ◌<◌, length};
ghost use Rattle.tlv.specs.Checked.{Placed};
ghost use Rattle.tlv.specs.Lists.{at};
ghost use Rattle.line_program.specs.Scan.{offset_record, offsets_at};
ghost use Rattle.rows.specs.Sizes.{sequence_range_size};
ghost use Rattle.rows.specs.Stored.{sequence_of};
ghost use Rattle.collect.specs.Passes.{rows_from, count_rows, counted_of, SequencePut};

use buffers::table::Stored;
use line_program::lines::OFFSET_RECORD;
use rows::line::LineSequenceRange;
use tlv::bytes::Number;
use tlv::kinds::{END_ROW, FAILED_ROW};
use tlv::model::AddressRange;
use tlv::refusal::Refusal;
use tlv::shapes::ROW_KIND;

// Rows that were counted: those in finished sequences, those of the sequence that is open, and how many sequences are finished.
#[derive(Clone, Copy, Debug, Default)]
pub struct CountedRows {
    pub lines: usize,
    pub opened: usize,
    pub sequences: usize,
}

impl CountedRows {
    // Counts a row of the open sequence.
    pub fn count_row(&mut self)
        requires { self.old.opened < usize.MAX }
        ensures { self.new ≡ record { lines = self.old.lines; opened = self.old.opened + 1; sequences = self.old.sequences } }
    {
        self.opened += 1;
    }

    // Counts the end of the open sequence: its rows now stand in a finished one.
    pub fn end_sequence(&mut self)
        requires lines_fit { self.old.lines + self.old.opened < 2 ^ 64 }
        requires sequences_fit { self.old.sequences < usize.MAX }
        ensures { self.new ≡ record { lines = self.old.lines + self.old.opened; opened = 0; sequences = self.old.sequences + 1 } }
    {
        self.lines += self.opened;
        self.opened = 0;
        self.sequences += 1;
    }
}

// Counts the row fields of the unit whose fields follow place p; a row may be one that could not be read.
pub fn count_rows(s: &[u8], p: usize) -> Result<CountedRows, Refusal>
    requires { Placed s.now p }
    ensures { counted_of result ≡ count_rows (rows_from s.now p) 0 0 0 }
{
    let mut at = p;
    let mut counted = CountedRows::default();
    // Stays a loop: each field's own length moves the place; what is counted is what was found.
    while let Some(field) = access::access::next_row(s, at) {
        let kind = u8::read(s, field.start + ROW_KIND);
        if kind == FAILED_ROW {
            return Err(Refusal::Decoder);
        }
        at = field.next;
        if kind == END_ROW {
            counted.end_sequence();
        } else {
            counted.count_row();
        }
    }
    Ok(counted)
}

// The offset of the sequence of a number.
pub fn sequence_offset(work: &[u8], offsets: Stored<u64>, sequence: usize) -> Option<u64>
    requires { offsets.base + offsets.count * offset_record ≤ length work.now }
    ensures { sequence_of result ≡ at (offsets_at work.now offsets.base offsets.count) sequence }
{
    if sequence < offsets.count {
        return Some(u64::read(work, offsets.base + sequence * OFFSET_RECORD));
    }
    None
}

// Writes at p the record of the sequence of a number, with its offset.
// Stays a clause, as in store_lines and collect_sequences: each asks it of another place, up to which it writes then.
pub fn put_sequence_record(
    work: &mut [u8],
    offsets: Stored<u64>,
    sequence: usize,
    p: usize,
    range: AddressRange,
)
    requires offsets_below { offsets.base + offsets.count * offset_record ≤ p }
    requires record_fits { p + sequence_range_size ≤ length work.old }
    ensures { SequencePut work.old work.new p offsets.base offsets.count (record { range = range; sequence = sequence }) }
{
    let sequence = LineSequenceRange {
        range,
        statement_sequence: sequence_offset(work, offsets, sequence),
    };
    sequence.write(work, p);
}
