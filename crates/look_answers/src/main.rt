// Reads records trays and queries of them from standard input and writes what the look-ups answer (oracle/README.md says how both stand).
#![tactic(auto)]

use lookup::address::look_up;
use lookup::below::nearest_below;
use lookup::model::Chain;
use lookup::window::{functions_crossing, functions_inside};
use std::io::{self, Write};
use streams::{FILLED, answer_all, answer_next, split_part, write_refused};
use tlv::bytes::Number;
use tlv::refusal::Refusal;

// A query: its kind (1 byte), an address or a window's start (8), the window's end (8), the length of the list that is lent (2).
const FIRST: usize = 1;

const SECOND: usize = FIRST + 8;

const ROOM: usize = SECOND + 8;

const QUERY_SIZE: usize = ROOM + 2;

// Its kinds; any other asks for the functions that cross the window's edge.
const ADDRESS_QUERY: u8 = 1;

const NEAREST_QUERY: u8 = 2;

const INSIDE_QUERY: u8 = 3;

// The longest call.
const CALL_LIMIT: usize = 65536;

// The longest list that is lent.
const LIST_LIMIT: usize = 4096;

fn write_row(out: &mut impl Write, row: Option<usize>) -> io::Result<()> {
    match row {
        None => write!(out, " no row"),
        Some(place) => write!(out, " row {place}"),
    }
}

// All 257 places of a chain, as far as they are not 0 or are of it.
fn write_chain(out: &mut impl Write, chain: Chain) -> io::Result<()> {
    write!(out, " chain")?;
    for (i, &place) in chain.places.iter().enumerate() {
        if i < chain.nodes || place != 0 {
            write!(out, " {place}")?;
        }
    }
    Ok(())
}

fn answer_address(out: &mut impl Write, tray: &[u8], address: u64) -> io::Result<()> {
    match look_up(tray, address) {
        Err(e) => {
            write_refused(out, e)?;
            write!(out, " chain")
        }
        Ok(found) => {
            write!(out, "function {}", found.function)?;
            write_row(out, found.row)?;
            write_chain(out, found.chain)
        }
    }
}

fn answer_nearest(out: &mut impl Write, tray: &[u8], address: u64) -> io::Result<()> {
    match nearest_below(tray, address) {
        Err(e) => write_refused(out, e),
        Ok(place) => write!(out, "function {place}"),
    }
}

// All bytes of a list that was lent.
fn write_bytes(out: &mut impl Write, list: &[u8]) -> io::Result<()> {
    for b in list {
        write!(out, "{b:02x}")?;
    }
    Ok(())
}

// What a query of a window answers, and all of the list that was lent for it, of so many bytes.
fn answer_window<F: FnOnce(&mut [u8]) -> Result<usize, Refusal>>(
    out: &mut impl Write,
    list: &mut [u8],
    room: usize,
    query: F,
) -> io::Result<()>
    requires { F.IsAlwaysCallable query }
{
    if list.len() < room {
        return write!(out, "longer than the list");
    }
    let lent = &mut list[..room];
    lent.fill(FILLED);
    match query(lent) {
        Err(e) => write_refused(out, e)?,
        Ok(n) => write!(out, "list {n}")?,
    }
    write!(out, " ")?;
    write_bytes(out, lent)
}

// What a query asks of a tray.
fn answer_query(
    out: &mut impl Write,
    tray: &[u8],
    query: &[u8; QUERY_SIZE],
    list: &mut [u8],
) -> io::Result<()> {
    let first = u64::read(query, FIRST);
    let second = u64::read(query, SECOND);
    let room = u16::read(query, ROOM) as usize;
    // Stays a match: the kind is a byte of the input, and each kind has a look-up of its own.
    match query[0] {
        ADDRESS_QUERY => answer_address(out, tray, first),
        NEAREST_QUERY => answer_nearest(out, tray, first),
        INSIDE_QUERY => answer_window(out, list, room, |lent| {
            functions_inside(tray, first, second, lent)
        }),
        _ => answer_window(out, list, room, |lent| {
            functions_crossing(tray, first, second, lent)
        }),
    }
}

// Stays beside line_answers' and search_answers' `answer_queries`: alike is one loop, and each answers by what it is lent.
fn answer_queries(
    out: &mut impl Write,
    tray: &[u8],
    queries: &[u8],
    list: &mut [u8],
) -> io::Result<()> {
    let (queries, _) = queries.as_chunks::<QUERY_SIZE>();
    for query in queries {
        answer_query(out, tray, query, list)?;
        writeln!(out)?;
    }
    Ok(())
}

// The length of the tray (4 bytes), the tray, the queries; false where the call is cut off.
// Stays beside line_answers' `answer_rows` and search_answers' `answer`: the cut is shared, and what is done with the parts is each program's own.
fn answer(out: &mut impl Write, call: &[u8], list: &mut [u8]) -> io::Result<bool> {
    let Some((tray, queries)) = split_part(call) else {
        return Ok(false);
    };
    answer_queries(out, tray, queries, list)?;
    Ok(true)
}

// Stays a `main` of its own: what it lends are arrays of its own sizes.
fn main(rt: HostRuntime) -> io::Result<()> {
    let mut buffer = [0u8; CALL_LIMIT];
    let mut list = [0u8; LIST_LIMIT];
    let mut out = io::writer(&rt);
    answer_all(&mut rt.reader(), |input| {
        answer_next(input, &mut out, &mut buffer, |out, call| {
            answer(out, call, &mut list)
        })
    })
}
