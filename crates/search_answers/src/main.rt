// Reads calls of the searches from standard input and writes what they answer, with how many entries each read (oracle/README.md says how both stand).
#![tactic(auto)]

ghost use Rattle.tlv.specs.Checked.{Accepts};

use crate::output::answer_refused;
use crate::searches::Searches;
use crate::tables::{build_tables, has_room};
use files::sheets::Sheets;
use std::io::{self, Write};
use streams::{answer_all, answer_next, split_parts};
use tlv::grammar::check_input;

pub mod output;
mod searches;
pub mod tables;

// The longest call.
const CALL_LIMIT: usize = 16384;

const WORK_SIZE: usize = 65536;

// The queries of two accepted sheets of n and m fields; false where the work has no room.
fn answer_accepted(
    out: &mut impl Write,
    sheets: Sheets,
    n: usize,
    m: usize,
    queries: &[u8],
    work: &mut [u8],
) -> io::Result<bool>
    requires main_accepts { Accepts sheets.main.now n }
    requires supplementary_accepts { Accepts sheets.supplementary.now m }
{
    if !has_room(
        sheets.main.len(),
        sheets.supplementary.len(),
        n,
        m,
        work.len(),
    ) {
        return Ok(false);
    }
    let searches = Searches {
        places: build_tables(sheets, n, m, work),
        files: n + m + 1,
    };
    searches.answer_queries(out, queries, work)?;
    Ok(true)
}

// Stays two matches: of one function with `?` for both sheets the contract would say of both numbers what check_input says of each.
fn answer_sheets(
    out: &mut impl Write,
    main: &[u8],
    supplementary: &[u8],
    queries: &[u8],
    work: &mut [u8],
) -> io::Result<bool> {
    let n = match check_input(main, 0) {
        Ok(n) => n as usize,
        Err(refusal) => return answer_refused(out, refusal),
    };
    let m = match check_input(supplementary, 0) {
        Ok(m) => m as usize,
        Err(refusal) => return answer_refused(out, refusal),
    };
    let sheets = Sheets {
        main,
        supplementary,
    };
    answer_accepted(out, sheets, n, m, queries, work)
}

// The lengths of both sheets (4 bytes each), the main sheet, the supplementary one, the queries; false where the call is cut off or has no room.
// Stays beside line_answers' `answer_rows`: the cut is shared, and what is done with the parts is each program's own.
// Stays with output, call and work apart, as in line_answers: answer_front says why.
fn answer(out: &mut impl Write, call: &[u8], work: &mut [u8]) -> io::Result<bool> {
    let Some((main, supplementary, queries)) = split_parts(call) else {
        return Ok(false);
    };
    answer_sheets(out, main, supplementary, queries, work)
}

// Stays a `main` of its own: the sizes are line_answers' too, but there a call's kind stands before it.
fn main(rt: HostRuntime) -> io::Result<()> {
    let mut buffer = [0u8; CALL_LIMIT];
    let mut work = [0u8; WORK_SIZE];
    let mut out = io::writer(&rt);
    answer_all(&mut rt.reader(), |input| {
        answer_next(input, &mut out, &mut buffer, |out, call| {
            answer(out, call, &mut work)
        })
    })
}
