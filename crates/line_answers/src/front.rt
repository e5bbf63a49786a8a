// Calls of a function's own rows, by the loop from the front of a table whose rows may stand in any order.
ghost use Rattle.std.specs.Prelude.{◌≡◌, true, ◌+◌, ◌*◌, ◌≤◌, length};
ghost use Rattle.rows.specs.Sizes.{entry_size, line_size};
ghost use Rattle.rows.specs.Selects.{RowsBelow};

use crate::QUERY_SEQUENCE;
use crate::output::write_rows;
use buffers::table::Stored;
use rows::line::{ENTRY_SIZE, LINE_SIZE};
use rows::unit_lines::StoredLines;
use std::io::{self, Write};
use streams::split_number;
use tlv::bytes::Number;
use tlv::model::AddressRange;

// A row in the table, and room for it among a function's rows.
const STORED: usize = LINE_SIZE + ENTRY_SIZE;

// A query of rows, and behind it how many rows at the front the loop passes over at once (4 bytes).
const QUERY_MOST: usize = crate::QUERY_SIZE;

const QUERY_SIZE: usize = QUERY_MOST + 4;

// Whether the first `most` rows lie below a range.
fn lie_below(work: &[u8], l: StoredLines, range: AddressRange, most: usize) -> bool
    requires rows_within { l.lines.base + l.lines.count * line_size ≤ length work.now }
    requires in_table { most ≤ l.lines.count }
    ensures { result ≡ true → RowsBelow work.now l range most }
{
    (0..most).all(
        |i|
            requires { l.lines.base + (i + 1) * line_size ≤ length work.now }
        {
            let address = rows::line::address_at(work, l.lines.base + i * LINE_SIZE);
            address < range.start && address < range.end
        },
    )
}

// Writes the place of the first row at or past the range's end, or how many rows there are, and the rows of the range that are of the sequence asked for.
// False, with nothing written, where one of the rows at the front does not lie below the range, or there are fewer rows than wanted there.
fn answer_query(
    out: &mut impl Write,
    query: &[u8; QUERY_SIZE],
    work: &mut [u8],
    l: StoredLines,
) -> io::Result<bool>
    requires rows_below_buffer { l.lines.base + l.lines.count * line_size ≤ l.buffer }
    requires buffer_within { l.buffer + l.lines.count * entry_size ≤ length work.old }
{
    let range = AddressRange::read(query, 0);
    let asked = rows::line::sequence_at(query, QUERY_SEQUENCE);
    let wanted = u32::read(query, QUERY_MOST) as usize;
    if l.lines.count < wanted || !lie_below(work, l, range, wanted) {
        return Ok(false);
    }
    let own = l.own_rows(work, range, asked, l.buffer, wanted);
    let past = own.past;
    write!(out, "\nplace {past}")?;
    write_rows(out, work, Stored::new(l.buffer, own.count))?;
    Ok(true)
}

// Answers each query of a call; false where one can't be answered.
fn answer_queries(
    out: &mut impl Write,
    queries: &[u8],
    work: &mut [u8],
    l: StoredLines,
) -> io::Result<bool>
    requires rows_below_buffer { l.lines.base + l.lines.count * line_size ≤ l.buffer }
    requires buffer_within { l.buffer + l.lines.count * entry_size ≤ length work.old }
{
    let (queries, _) = queries.as_chunks::<QUERY_SIZE>();
    // Stays a `for` with a `return`: writing an answer may fail, which `?` hands on, and of a closure that writes the work slice nothing is known.
    for query in queries {
        if !answer_query(out, query, work, l)? {
            return Ok(false);
        }
    }
    Ok(true)
}

// How many rows there are (4 bytes), the rows: address (8), file (4), line (4), whether a sequence is known (1), its offset (8); then the queries.
// Stays with the output, the call and the work slice apart, as other kinds of calls have them: each is lent for one call, which is cut up on the way.
pub fn answer_front(out: &mut impl Write, call: &[u8], work: &mut [u8]) -> io::Result<bool> {
    let Some((count, rest)) = split_number(call) else {
        return Ok(false);
    };
    let count = count as usize;
    let Some((rows, queries)) = rest.split_at_checked(count * LINE_SIZE) else {
        return Ok(false);
    };
    if work.len() / STORED < count {
        return Ok(false);
    }
    work[..rows.len()].copy_from_slice(rows);
    write!(out, "front {count}")?;
    let l = StoredLines {
        lines: Stored::new(0, count),
        sequences: Stored::new(0, 0),
        buffer: count * LINE_SIZE,
    };
    answer_queries(out, queries, work, l)
}
