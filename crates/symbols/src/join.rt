// Symbols joined to a copy of a records tray.
ghost use Rattle.std.specs.Prelude.{◌≡◌, true, ◌+◌, ◌^◌, ◌≤◌, ◌<◌, length, take};
ghost use Rattle.tlv.specs.Lists.{exists};
ghost use Rattle.tlv.specs.Bytes.{Bytes, le_at};
ghost use Rattle.tlv.specs.Fields.{fields};
ghost use Rattle.buffers.specs.Buffer.{Put};
ghost use Rattle.lookup.specs.Lookup.{holds};
ghost use Rattle.symbols.specs.Symbols.{symbols_form, symbol_of, join_symbols};
ghost use Rattle.symbols.specs.Answers.{join_given, JoinsWith};
ghost use Rattle.symbols.specs.Extents.{Known};
ghost use Rattle.symbols.specs.Walk.{ranges_in, laid_for, Standing, AllJoined};

use crate::extents::{RangeTables, is_held_with, learn, remember};
use crate::form::check_symbols;
use crate::model::SYMBOL_SIZE;
use lookup::address::function_at;
use lookup::form::check_records;
use lookup::lent::refused;
use tlv::bytes::Number;
use tlv::fields::next_field;
use tlv::model::AddressRange;
use tlv::refusal::Refusal;

// Whether a record in the first `at` bytes of the result holds an address.
// Stays the result and a place: what writes behind the place asks the same clause of both, which of `&res[..at]` would have to be led to it at each call.
pub fn is_held(res: &[u8], at: usize, address: u64) -> bool
    requires { Standing res.now at }
    ensures { result ≡ exists (holds address) (ranges_in (take at res.now)) }
{
    function_at(&res[..at], address).is_some()
}

// The addresses of the symbol of a payload.
fn symbol_range(payload: &[u8]) -> AddressRange
    requires has_head { 16 ≤ length payload.now }
    requires end_fits { le_at 8 payload.now 0 + le_at 8 payload.now 8 < 2 ^ 64 }
    ensures { result ≡ (symbol_of payload.now).range }
{
    let start = u64::read(payload, 0);
    let size = u64::read(payload, 8);
    AddressRange {
        start,
        end: start + size,
    }
}

// Joins the symbol of a payload to the first `at` bytes of the result, unless it is passed over or a record there holds its start.
fn join_symbol(
    payload: &[u8],
    res: &mut [u8],
    at: usize,
    work: &[u8],
    tables: Option<RangeTables>,
) -> usize
    requires has_head { 16 ≤ length payload.now }
    requires length_fits { length payload.now < 65536 }
    requires end_fits { le_at 8 payload.now 0 + le_at 8 payload.now 8 < 2 ^ 64 }
    requires standing { Standing res.old at }
    requires known { Known (ranges_in (take at res.old)) work.now tables }
    ensures { Put at (laid_for (ranges_in (take at res.old)) (symbol_of payload.now)) res.old res.new result }
{
    let range = symbol_range(payload);
    // Stays beside `is_empty`: the definition asks whether both ends are equal, and that the end isn't below the start would be shown for that alone.
    let empty = range.start == range.end;
    let nameless = payload.len() == SYMBOL_SIZE;
    if empty || nameless || is_held_with(res, at, range.start, work, tables) {
        return at;
    }
    buffers::output::put_function(res, at, range, &payload[SYMBOL_SIZE..])
}

// Joins every symbol of a list to the first `from` bytes of the result. Where the result has no room the place is past its end.
fn join_all(
    symbols: &[u8],
    res: &mut [u8],
    from: usize,
    work: &mut [u8],
    learned: Option<RangeTables>,
) -> usize
    requires formed { symbols_form (fields symbols.now) ≡ true }
    requires bytes { Bytes symbols.now }
    requires standing { Standing res.old from }
    requires known { Known (ranges_in (take from res.old)) work.old learned }
    ensures { AllJoined symbols.now res.old res.new from result }
{
    let mut p: usize = 0;
    let mut at = from;
    let mut tables = learned;
    // Stays a loop over fields: next_field says why.
    while let Some(field) = next_field(symbols, p) {
        let payload = field.payload(symbols);
        let then = join_symbol(payload, res, at, work, tables);
        if res.len() < then {
            return then;
        }
        if at < then {
            tables = remember(work, tables, symbol_range(payload));
        }
        at = then;
        p = field.next;
    }
    at
}

// The join, with the tables in work; the byte length of the result.
// Stays with what is lent apart, as the two below: C lends each so, and learn and join_all take some of them.
fn join_in(
    records: &[u8],
    symbols: &[u8],
    res: &mut [u8],
    work: &mut [u8],
) -> Result<usize, Refusal>
    ensures { join_given result res.new ≡ join_symbols records.now symbols.now res.old }
{
    if !check_records(records) {
        return refused(res, Refusal::MisshapenRecords);
    }
    if !check_symbols(symbols) {
        return refused(res, Refusal::MisshapenSymbols);
    }
    let copied = buffers::output::put_bytes(res, 0, records);
    if res.len() < copied {
        return refused(res, Refusal::ShortResult);
    }
    let tables = learn(records, work);
    let n = join_all(symbols, res, copied, work, tables);
    if res.len() < n {
        return refused(res, Refusal::ShortResult);
    }
    Ok(n)
}

// Joins the symbols of a list to a records tray: the records are copied, and each symbol whose start none of them holds follows as a bare record.
// Work may have any length, and decides about time alone; 16 bytes for each function and each symbol spare the walks over the result.
pub fn join_symbols_with(
    records: &[u8],
    symbols: &[u8],
    res: &mut [u8],
    work: &mut [u8],
) -> Result<usize, Refusal>
    ensures { JoinsWith records.now symbols.now res.old res.new
        work.old work.new result }
{
    let joined = join_in(records, symbols, res, work);
    work.fill(0);
    joined
}

// The same with no work lent.
pub fn join_symbols(records: &[u8], symbols: &[u8], res: &mut [u8]) -> Result<usize, Refusal>
    ensures { join_given result res.new ≡ join_symbols records.now symbols.now res.old }
{
    join_in(records, symbols, res, &mut [])
}
