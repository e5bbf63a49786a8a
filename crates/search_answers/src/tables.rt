// The tables that the searches need.
ghost use Rattle.std.specs.Prelude.{◌+◌, ◌*◌, ◌^◌, ◌≤◌, ◌<◌, length};
ghost use Rattle.tlv.specs.Checked.{Accepts};
ghost use Rattle.search_answers.specs.Searches.{Room, HasRoom, IndexedSheet, BuildsTables};

use access::index::{ENTRY_RECORD, index_entries};
use access::units::{UNIT_RECORD, index_units};
use buffers::table::Stored;
use declarations::declaring::Places;
use files::index::INDEX_RECORD;
use files::sheets::Sheets;
use files::spans::SPAN_RECORD;
use files::store::{FILE_RECORD, JOINED_LIMIT};
use references::keys::{CHAIN_HEAD, KEY_RECORD};
use references::tables::{Index, Tables};
use tlv::grammar::FIELD_LIMIT;

// Sheets of fewer bytes.
const SHEET_LIMIT: usize = 4294967296;

// A unit's record and an entry's.
const FIELD_TABLES: usize = UNIT_RECORD + ENTRY_RECORD;

// What the tables take of the work slice for a field of the main sheet, whichever it is: a file's record, a directory's span or a place in the unit's map,
// which is no larger, a unit's or an entry's record, the head of an entry's chain and the target of an attribute.
const MAIN_FIELD: usize = FILE_RECORD + SPAN_RECORD + FIELD_TABLES + CHAIN_HEAD + KEY_RECORD;

// An attribute of the supplementary sheet can give two targets.
const SUPPLEMENTARY_FIELD: usize = MAIN_FIELD + KEY_RECORD;

// What the file table takes besides a record for each file: the longest joined path, and a record more.
const TABLE_BESIDES: usize = JOINED_LIMIT + FILE_RECORD;

// What all tables take besides so much for each field: the file table's besides, a place in the unit's map and the head of a chain more.
const ROOM_BESIDES: usize = TABLE_BESIDES + INDEX_RECORD + CHAIN_HEAD;

// Whether a work slice has room for the tables of two sheets of so many bytes and fields, for their files below and the targets that a search follows above.
pub fn has_room(main: usize, supplementary: usize, n: usize, m: usize, work: usize) -> bool
    ensures { HasRoom main supplementary n m work result }
{
    main < SHEET_LIMIT
        && supplementary < SHEET_LIMIT
        && n as u64 <= FIELD_LIMIT
        && m as u64 <= FIELD_LIMIT
        && n * MAIN_FIELD + m * SUPPLEMENTARY_FIELD + ROOM_BESIDES <= work
}

// Writes the tables of a sheet of n fields, the entries behind the units.
// Stays beside dwarf's index_input: that has its places from a layout, this makes them from n; alike are two calls and the struct of what they answer.
fn index_sheet(s: &[u8], n: usize, work: &mut [u8], base: usize) -> Index
    requires accepts { Accepts s.now n }
    requires small { length s.now < 2 ^ 32 }
    requires tables_fit { base + n * 40 ≤ length work.old }
    ensures { IndexedSheet s.now work.old work.new base n result }
{
    Index {
        units: index_units(s, work, base),
        entries: index_entries(s, work, base + n * UNIT_RECORD),
    }
}

// Writes the tables of both sheets, which have n and m fields. Below them is room for a file table of n + m + 1 files and for a unit's directories and map,
// above them for the followed targets. No files of the unit where a search starts are known.
pub fn build_tables<'a>(sheets: Sheets<'a>, n: usize, m: usize, work: &mut [u8]) -> Places<'a>
    requires main_accepts { Accepts sheets.main.now n }
    requires supplementary_accepts { Accepts sheets.supplementary.now m }
    requires room { Room (length sheets.main.now) (length sheets.supplementary.now) n m (length work.old) }
    ensures { BuildsTables sheets.entry work.new (n + m + 1) result }
{
    let spans = (n + m) * FILE_RECORD + TABLE_BESIDES;
    let room = (n + m) * SPAN_RECORD + INDEX_RECORD;
    let base = spans + room;
    let next = base + n * FIELD_TABLES;
    let keys = next + m * FIELD_TABLES;
    let main = index_sheet(sheets.main, n, work, base);
    let supplementary = index_sheet(sheets.supplementary, m, work, next);
    Places {
        tables: Tables {
            sheets,
            main,
            supplementary,
            keys,
        },
        indices: Stored::new(spans, 0),
        spans,
        room,
    }
}
