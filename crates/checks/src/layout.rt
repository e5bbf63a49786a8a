// Where the tables of an import stand in the work slice: places and rooms computed from counts of fields.
ghost use Rattle.std.specs.Prelude.{◌≡◌, ◌≤◌, ◌*◌};
ghost use Rattle.tlv.specs.Limits.{field_limit};
ghost use Rattle.access.specs.Places.{unit_here, UnitOf};
ghost use Rattle.files.specs.Pieces.{UnitPlaced};
ghost use Rattle.rnglists.specs.Room.{open_lists};
ghost use Rattle.checks.specs.Checks.{is_encoded};
ghost use Rattle.checks.specs.Layout.{TagsCounted, Sized, total_of, program_rows, LaysOut, unit_layout, RoomsSmall, TagsKnown};

use crate::checks::has_encoding;
use crate::options::Sizes;
use access::access::list_count;
use access::index::ENTRY_RECORD;
use access::units::UNIT_RECORD;
use dies::sites::{CLOSED_SITE, OPEN_SITE};
use files::index::INDEX_RECORD;
use files::spans::SPAN_RECORD;
use files::store::{FILE_RECORD, JOINED_LIMIT};
use line_program::lines::{OFFSET_RECORD, SEQUENCE_LEAST};
use ranges::ranges::RANGE_RECORD;
use rnglists::lists::RANGE_LEAST;
use rows::line::{ENTRY_SIZE, ROW_ROOM};
use tlv::fields::next_field;
use tlv::tags::{
    ATTRIBUTE_TAG, DIRECTORY_TAG, ENCODING_TAG, ENTRY_TAG, FILE_TAG, FILE_ZERO_TAG, LIST_TAG,
    RANGE_TAG, ROW_TAG, TEXT_TAG, UNIT_TAG, UNIT_WHOLE,
};

// How many lists can stand in the stack of ranges at once: one for each of the 256 nodes that can be open, and the one that is read.
const OPEN_LISTS: usize = 257;

// The tables that serve all units stand first: the main input's units at 0, its entries, the supplementary one's units and entries, the file table with its
// room for files. From `lines` on stands what belongs to one unit, in rooms: its lines, its executable ranges, what a unit that is reached by reference
// needs, the open nodes' ranges, the open and the closed call sites; behind them the followed targets.
#[derive(Clone, Copy, Debug)]
pub struct Layout {
    pub main_entries: usize,
    pub supplementary_units: usize,
    pub supplementary_entries: usize,
    pub files: usize,
    pub room: usize,
    pub lines: usize,
    pub line_room: usize,
    pub text_room: usize,
    pub span_room: usize,
    pub range_room: usize,
    pub stack_room: usize,
    pub site_room: usize,
    // What a unit's rows and ranges can have besides: the program's bytes, and a third of the bytes of the range lists.
    pub size: usize,
    pub third: usize,
    // Whether a unit has a line encoding, or an entry a range list.
    pub with_encodings: bool,
    pub with_lists: bool,
}

// Where the parts of one unit stand behind its lines.
// Stays with three places that UnitContext has too: a struct of them would be made for that one copy.
#[derive(Clone, Copy, Debug)]
pub struct UnitLayout {
    pub text: usize,
    pub spans: usize,
    pub ranges: usize,
    pub stack: usize,
    pub sites: usize,
    pub keys: usize,
}

// For each tag that needs a table, how many fields of it the input has.
#[derive(Clone, Copy, Debug)]
pub struct Counts {
    pub units: usize,
    pub text: usize,
    pub directories: usize,
    pub files: usize,
    pub zeros: usize,
    pub encodings: usize,
    pub rows: usize,
    pub entries: usize,
    pub attributes: usize,
    pub ranges: usize,
    pub lists: usize,
}

// How many fields of each tag below 32 an input has, in one pass.
fn count_tags(s: &[u8]) -> [usize; 32]
    ensures { TagsCounted s.now result }
{
    let mut counts = [0usize; 32];
    let mut p = 0;
    // Stays a loop over fields: next_field says why.
    while let Some(field) = next_field(s, p) {
        if field.tag < 32 {
            counts[field.tag as usize] += 1;
        }
        p = field.next;
    }
    counts
}

// For each tag that needs a table, how many fields of it the input has.
pub fn counts_of(s: &[u8]) -> Counts
    ensures { Sized s.now result }
{
    let counts = count_tags(s);
    Counts {
        units: counts[UNIT_TAG as usize],
        text: counts[TEXT_TAG as usize],
        directories: counts[DIRECTORY_TAG as usize],
        files: counts[FILE_TAG as usize],
        zeros: counts[FILE_ZERO_TAG as usize],
        encodings: counts[ENCODING_TAG as usize],
        rows: counts[ROW_TAG as usize],
        entries: counts[ENTRY_TAG as usize],
        attributes: counts[ATTRIBUTE_TAG as usize],
        ranges: counts[RANGE_TAG as usize],
        lists: counts[LIST_TAG as usize],
    }
}

// The places and rooms for a main input with counts m, a supplementary one with counts s, a program and range lists of these sizes.
pub fn lay_out(m: Counts, s: Counts, sizes: Sizes) -> Layout
    requires { (total_of m ≤ field_limit) × (total_of s ≤ field_limit) }
    ensures { LaysOut m s sizes.program sizes.lists result }
{
    let size = sizes.program;
    let main_entries = UNIT_RECORD * m.units;
    let supplementary_units = main_entries + ENTRY_RECORD * m.entries;
    let supplementary_entries = supplementary_units + UNIT_RECORD * s.units;
    let files = supplementary_entries + ENTRY_RECORD * s.entries;
    let room = m.files + m.zeros + s.files + s.zeros + 1;
    let line_room = size / SEQUENCE_LEAST * OFFSET_RECORD
        + SPAN_RECORD * m.directories
        + INDEX_RECORD * (1 + m.files)
        + ROW_ROOM * m.rows
        + ENTRY_SIZE;
    Layout {
        main_entries,
        supplementary_units,
        supplementary_entries,
        files,
        room,
        lines: files + room * FILE_RECORD + JOINED_LIMIT,
        line_room,
        text_room: RANGE_RECORD * m.text,
        span_room: SPAN_RECORD * (m.directories + s.directories)
            + INDEX_RECORD * (1 + m.files + s.files),
        range_room: RANGE_RECORD * (1 + m.ranges),
        stack_room: OPEN_SITE * m.entries,
        site_room: CLOSED_SITE * m.entries,
        size,
        third: sizes.lists / RANGE_LEAST,
        with_encodings: m.encodings != 0,
        with_lists: m.lists != 0,
    }
}

// The most rows that a program of so many bytes gives.
fn program_rows(size: usize, encoded: bool) -> usize
    ensures { result ≡ program_rows size encoded }
{
    if encoded { size } else { 0 }
}

// How many of a unit's lists can stand in the stack of ranges at once.
fn open_lists(lists: usize) -> usize
    ensures { result ≡ open_lists lists }
{
    lists.min(OPEN_LISTS)
}

// The places of a unit with so many range lists, whose rows may come from the program.
fn unit_layout(l: Layout, encoded: bool, lists: usize) -> UnitLayout
    requires { RoomsSmall l }
    ensures { result ≡ unit_layout l encoded lists }
{
    let text = l.lines + l.line_room + ROW_ROOM * program_rows(l.size, encoded);
    let spans = text + l.text_room;
    let ranges = spans + l.span_room;
    let stack = ranges + l.range_room + RANGE_RECORD * (l.third * open_lists(lists));
    let sites = stack + l.stack_room;
    UnitLayout {
        text,
        spans,
        ranges,
        stack,
        sites,
        keys: sites + l.site_room,
    }
}

// How many range lists the unit at a place has.
// Stays with sheet, place and layout apart, as the two below: a struct of them would be made for one call of place_unit.
fn unit_lists(main: &[u8], place: usize, l: Layout) -> usize
    requires unit_placed { UnitPlaced main.now place }
    requires unit_of { (UnitOf main.now place) × (TagsKnown main.now l) }
    ensures { result ≡ (unit_here main.now place).lists }
{
    if l.with_lists {
        list_count(main, place + UNIT_WHOLE)
    } else {
        0
    }
}

// Whether its rows come from the program.
fn unit_encoded(main: &[u8], place: usize, l: Layout) -> bool
    requires unit_placed { UnitPlaced main.now place }
    requires unit_of { (UnitOf main.now place) × (TagsKnown main.now l) }
    ensures { result ≡ is_encoded (unit_here main.now place) }
{
    l.with_encodings && has_encoding(main, place)
}

// Its places.
pub fn place_unit(main: &[u8], place: usize, l: Layout) -> UnitLayout
    requires unit_placed { UnitPlaced main.now place }
    requires unit_of { (UnitOf main.now place) × (TagsKnown main.now l) }
    requires rooms_small { RoomsSmall l }
    ensures { result ≡ unit_layout l (is_encoded (unit_here main.now place)) (unit_here main.now place).lists }
{
    let encoded = unit_encoded(main, place, l);
    let lists = unit_lists(main, place, l);
    unit_layout(l, encoded, lists)
}
