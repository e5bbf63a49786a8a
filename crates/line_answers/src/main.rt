// Reads calls of the lines layer from standard input and writes what its functions answer (oracle/README.md says how both stand).
#![tactic(auto)]

ghost use Rattle.rows.specs.Selects.{RowsIn};

use crate::collected::collect_case;
use crate::output::write_rows;
use rows::unit_lines::StoredLines;
use std::io::{self, Read, Write};
use streams::{answer_all, answer_next, next_u8, split_parts, write_name, write_refused};
use tlv::model::AddressRange;

pub mod collected;
mod front;
pub mod output;
mod texts;

// The kinds of calls.
const OPERAND_CALL: u8 = 1;

const PROGRAM_CALL: u8 = 2;

const PATH_CALL: u8 = 3;

const JOIN_CALL: u8 = 4;

const ROWS_CALL: u8 = 5;

const FRONT_CALL: u8 = 6;

// The longest call.
const CALL_LIMIT: usize = 16384;

const WORK_SIZE: usize = 65536;

// The most bytes of a unit's files, and of its warnings.
const TRAY_SIZE: usize = 16384;

// A query of rows: start (8 bytes), end (8), whether a sequence is asked for (1), its offset (8).
const QUERY_SEQUENCE: usize = 16;

const QUERY_SIZE: usize = QUERY_SEQUENCE + 9;

// The rows of a query's range.
fn answer_query(
    out: &mut impl Write,
    query: &[u8; QUERY_SIZE],
    work: &mut [u8],
    l: StoredLines,
) -> io::Result<()>
    requires { RowsIn work.old l }
    ensures { RowsIn work.new l }
{
    let range = AddressRange::read(query, 0);
    let r = l.for_range(work, range, rows::line::sequence_at(query, QUERY_SEQUENCE));
    // Whole texts: each piece of a `write!` is a write of its own.
    out.write_all(if r.invalid { b"\nrows 1" } else { b"\nrows 0" })?;
    write_rows(out, work, r.rows)
}

// Stays beside the `answer_queries` of front, look_answers and search_answers: alike is one loop, and each answers by what it is lent.
fn answer_queries(
    out: &mut impl Write,
    queries: &[u8],
    work: &mut [u8],
    l: StoredLines,
) -> io::Result<()>
    requires { RowsIn work.old l }
{
    let (queries, _) = queries.as_chunks::<QUERY_SIZE>();
    for query in queries {
        answer_query(out, query, work, l)?;
    }
    Ok(())
}

// How many lines and sequences there are, the files, and the warnings.
fn write_collected(
    out: &mut impl Write,
    l: StoredLines,
    files: &[u8],
    warnings: &[u8],
) -> io::Result<()> {
    let lines = l.lines.count;
    let sequences = l.sequences.count;
    write!(out, "lines {lines} sequences {sequences}|")?;
    write_name(out, files)?;
    write!(out, "|")?;
    write_name(out, warnings)
}

// The lengths of the sheet and of the program (4 bytes each), the sheet, the program, the queries.
// Stays beside search_answers' `answer`: the cut is shared, and what is done with the parts is each program's own.
fn answer_rows(out: &mut impl Write, call: &[u8], work: &mut [u8]) -> io::Result<bool> {
    let Some((main, program, queries)) = split_parts(call) else {
        return Ok(false);
    };
    collect_rows(out, main, program, queries, work)
}

fn collect_rows(
    out: &mut impl Write,
    main: &[u8],
    program: &[u8],
    queries: &[u8],
    work: &mut [u8],
) -> io::Result<bool> {
    let mut files = [0u8; TRAY_SIZE];
    let mut warnings = [0u8; TRAY_SIZE];
    let collected = match collect_case(main, program, work, &mut files, &mut warnings) {
        Ok(collected) => collected,
        Err(refusal) => {
            write_refused(out, refusal)?;
            return Ok(true);
        }
    };
    let l = collected.lines;
    let written = collected.table.written;
    let warned = collected.warned;
    if TRAY_SIZE < written || TRAY_SIZE < warned {
        return Ok(false);
    }
    write_collected(out, l, &files[..written], &warnings[..warned])?;
    answer_queries(out, queries, work, l)?;
    Ok(true)
}

// The answer to a call of a kind; false where there is no such kind, or the call is cut off or has no room.
// Stays a match: the kind is a byte of the input, and each kind has its own layout.
fn answer(out: &mut impl Write, kind: u8, call: &[u8], work: &mut [u8]) -> io::Result<bool> {
    match kind {
        OPERAND_CALL => texts::answer_operand(out, call),
        PROGRAM_CALL => texts::answer_program(out, call, work),
        PATH_CALL => {
            texts::answer_path(out, call)?;
            Ok(true)
        }
        JOIN_CALL => texts::answer_join(out, call, work),
        ROWS_CALL => answer_rows(out, call, work),
        FRONT_CALL => front::answer_front(out, call, work),
        _ => Ok(false),
    }
}

// Answers the next call, which begins with its kind; false where that can't be done, with a message.
fn next_answer(
    input: &mut impl Read,
    out: &mut impl Write,
    buffer: &mut [u8],
    work: &mut [u8],
) -> io::Result<bool> {
    let kind = next_u8(input)?;
    let answered = answer_next(input, out, buffer, |out, call| {
        answer(out, kind, call, work)
    })?;
    if answered {
        writeln!(out)?;
    }
    Ok(answered)
}

// Stays a `main` of its own: the sizes are search_answers' too, but here a call's kind stands before it.
fn main(rt: HostRuntime) -> io::Result<()> {
    let mut buffer = [0u8; CALL_LIMIT];
    let mut work = [0u8; WORK_SIZE];
    let mut out = io::writer(&rt);
    answer_all(&mut rt.reader(), |input| {
        next_answer(input, &mut out, &mut buffer, &mut work)
    })
}
