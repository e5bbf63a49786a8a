// The ranges of the records in a result, in a lent work slice: those of the tray merged, and those of the symbols joined since. They decide about time alone.
ghost use Rattle.std.specs.Prelude.{IfSome, ◌≡◌, true, take};
ghost use Rattle.tlv.specs.Addresses.{Nonempty};
ghost use Rattle.tlv.specs.Lists.{exists};
ghost use Rattle.imports.specs.Ranges.{Apart};
ghost use Rattle.ranges.specs.RangeTable.{ranges_at};
ghost use Rattle.lookup.specs.Lookup.{holds};
ghost use Rattle.lookup.specs.Walk.{Stands};
ghost use Rattle.symbols.specs.Walk.{ranges_in, Standing};
ghost use Rattle.symbols.specs.Extents.{GatheredIn, Lying, Known, Remembered};

use crate::join::is_held;
use buffers::search::lower_bound;
use buffers::table::{Stored, put_range_at};
use ranges::ranges::{RANGE_RECORD, RangeTable, add_range, coalesce_at};
use tlv::fields::next_field;
use tlv::model::AddressRange;
use tlv::tags::TRAY_FUNCTION_TAG;

// The tables: `functions` merged ranges from the beginning of work on, and from `base` on `added` more, the first `merged` of which are merged. Where there
// is no room for them, there are none.
// Stays a place and three counts: the symbols' two tables lie one behind the other, so the place of the second would be said twice and set at each join.
#[derive(Clone, Copy, Debug)]
pub struct RangeTables {
    pub functions: usize,
    pub base: usize,
    pub merged: usize,
    pub added: usize,
}

// How many ranges that come in no order wait at most: each costs a look until all are merged at once.
const WAITING_MOST: usize = 1024;

// Whether one of the ranges of a table, which are apart, holds an address: a binary search.
fn holds_apart(table: RangeTable, address: u64) -> bool
    requires { Apart (ranges_at table.work.now table.stored.base table.stored.count) }
    ensures { result ≡ exists (holds address) (ranges_at table.entry.work.now table.entry.stored.base table.entry.stored.count) }
{
    let past = lower_bound(table.stored.count, |i| table.at(i).start <= address);
    past != 0 && address < table.at(past - 1).end
}

// The ranges of a tray's functions, as they come, and their number; none where they have no room.
// Stays beside look_index's `put_extents`: that writes the place of each field too, and counts on where this gives up.
fn gather_functions(s: &[u8], work: &mut [u8]) -> Option<usize>
    requires { Stands s.now 0 }
    ensures { GatheredIn s.now work.new result }
{
    let mut p: usize = 0;
    let mut n: usize = 0;
    // Stays a loop over fields: next_field says why; what is counted is what was found.
    while let Some(field) = next_field(s, p) {
        if field.tag == TRAY_FUNCTION_TAG {
            if work.len() - n * RANGE_RECORD < RANGE_RECORD {
                return None;
            }
            put_range_at(
                work,
                n * RANGE_RECORD,
                AddressRange::read(field.payload(s), 0),
            );
            n += 1;
        }
        p = field.next;
    }
    Some(n)
}

// The tables of a tray with no symbol joined.
pub fn learn(s: &[u8], work: &mut [u8]) -> Option<RangeTables>
    requires { Stands s.now 0 }
    ensures { Known (ranges_in s.now) work.new result }
{
    let gathered = gather_functions(s, work)?;
    let functions = coalesce_at(work, Stored::new(0, gathered));
    Some(RangeTables {
        functions,
        base: gathered * RANGE_RECORD,
        merged: 0,
        added: 0,
    })
}

// Whether a record in the first `at` bytes of the result holds an address: by the tables, or by a walk.
pub fn is_held_with(
    res: &[u8],
    at: usize,
    address: u64,
    work: &[u8],
    tables: Option<RangeTables>,
) -> bool
    requires standing { Standing res.now at }
    requires known { Known (ranges_in (take at res.now)) work.now tables }
    ensures { result ≡ exists (holds address) (ranges_in (take at res.now)) }
{
    let Some(known) = tables else {
        return is_held(res, at, address);
    };
    let functions = RangeTable {
        work,
        stored: Stored::new(0, known.functions),
    };
    let merged = RangeTable {
        work,
        stored: Stored::new(known.base, known.merged),
    };
    let waiting = RangeTable {
        work,
        stored: Stored::new(
            known.base + known.merged * RANGE_RECORD,
            known.added - known.merged,
        ),
    };
    holds_apart(functions, address) || holds_apart(merged, address) || waiting.holds(address)
}

// Whether a range can be merged with those of a table at once: all of these are merged, and it starts at or behind the start of the last, as in a list in
// the order of its addresses.
fn goes_behind(table: RangeTable, merged: usize, range: AddressRange) -> bool
    ensures { result ≡ true → merged ≡ table.entry.stored.count }
{
    if merged != table.stored.count {
        return false;
    }
    merged == 0 || table.at(merged - 1).start <= range.start
}

// The tables with the range of a symbol that was joined.
pub fn remember(
    work: &mut [u8],
    tables: Option<RangeTables>,
    range: AddressRange,
) -> Option<RangeTables>
    requires nonempty { Nonempty range }
    requires lying { IfSome tables (Lying work.old) }
    ensures { Remembered work.old work.new tables range result }
{
    let known = tables?;
    let end = known.base + known.added * RANGE_RECORD;
    if work.len() - end < RANGE_RECORD {
        return None;
    }
    let stored = Stored::new(known.base, known.added);
    let table = RangeTable { work, stored };
    if goes_behind(table, known.merged, range) {
        let merged = add_range(work, stored, range);
        return Some(RangeTables {
            merged,
            added: merged,
            ..known
        });
    }
    put_range_at(work, end, range);
    if known.added - known.merged < WAITING_MOST {
        return Some(RangeTables {
            added: known.added + 1,
            ..known
        });
    }
    let merged = coalesce_at(work, Stored::new(known.base, known.added + 1));
    Some(RangeTables {
        merged,
        added: merged,
        ..known
    })
}
