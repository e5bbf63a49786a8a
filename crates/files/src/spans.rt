// Spans of a sheet, and what of a unit tells the paths of its files.
ghost use Rattle.std.specs.Prelude.{◌≡◌, ◌+◌, ◌*◌, ◌≤◌, ◌<◌, ◌^◌, leb, length, drop};
ghost use Rattle.tlv.specs.Tags.{directory_tag};
ghost use Rattle.tlv.specs.Lists.{at};
ghost use Rattle.tlv.specs.Fields.{fields, payloads};
ghost use Rattle.tlv.specs.Checked.{Placed};
ghost use Rattle.buffers.specs.Table.{chunk};
ghost use Rattle.access.specs.Places.{own_fields, unit_here};
ghost use Rattle.files.specs.Pieces.{PutSpan, span_in, span_of, UnitPlaced, version_in, DirectoriesIn, CompilationIn, span_record, Described, counted_from};
ghost use Rattle.files.specs.Sheets.{sheet_in};

use crate::sheets::Sheets;
use access::access::next_before_rows;
use buffers::numbers::Written;
use buffers::table::Stored;
use tlv::bytes::Number;
use tlv::fields::FieldSpan;
use tlv::model::DebugSource;
use tlv::shapes::HEADER_VERSION;
use tlv::tags::{COMPILATION_TAG, DIRECTORY_TAG, HEADER_TAG, UNIT_WHOLE};

// Bytes of a span in a table of spans.
pub const SPAN_RECORD: usize = 8;

// A stretch of a sheet; the default one is empty.
// Stays a start and a length, no slice: spans are kept as numbers in records of the work slice.
#[derive(Clone, Copy, Debug, Default)]
pub struct Span {
    pub start: usize,
    pub len: usize,
}

impl From<FieldSpan> for Span {
    // That of a field's payload.
    fn from(field: FieldSpan) -> Span
        ensures { result ≡ record { start = field.start; len = field.len } }
    {
        Span {
            start: field.start,
            len: field.len,
        }
    }
}

impl Span {
    // The bytes of s that the span covers.
    pub fn of<'a>(self, s: &'a [u8]) -> &'a [u8]
        requires within { self.start + self.len ≤ length s.now }
        ensures { result.now ≡ span_in s.now self }
    {
        let end = self.start + self.len;
        &s[self.start..end]
    }

    // The span of a record in a table of spans.
    pub fn read(work: &[u8], p: usize) -> Span
        requires { p + 8 ≤ length work.now }
        ensures { result ≡ span_of (chunk work.now p 8) }
    {
        Span {
            start: u32::read(work, p) as usize,
            len: u32::read(work, p + 4) as usize,
        }
    }

    // Writes its record in a table of spans: its start and its length, of 4 bytes each.
    pub fn write(self, work: &mut [u8], p: usize)
        requires record_fits { p + 8 ≤ length work.old }
        requires end_small { self.start + self.len < 2 ^ 32 }
        ensures { PutSpan work.old work.new p self }
    {
        (self.start as u32).write(work, p);
        (self.len as u32).write(work, p + 4);
    }
}

// What of a unit tells the paths of its files: its sheet's source, its place, its line header's version, its compilation directory,
// and where its directories' spans stand in the work slice.
#[derive(Clone, Copy, Debug)]
pub struct FileUnit {
    pub source: DebugSource,
    pub place: usize,
    pub version: u8,
    pub compilation: Span,
    pub directories: Stored<Span>,
}

// Writes the spans of the directories of the unit whose fields follow place p, and returns their table.
fn index_directories(s: &[u8], p: usize, work: &mut [u8], base: usize) -> Stored<Span>
    requires placed { Placed s.now p }
    requires sheet_small { length s.now < 2 ^ 32 }
    requires spans_fit { base + span_record * length (payloads directory_tag (own_fields (fields (drop p s.now)))) ≤ length work.old }
    ensures based { result.base ≡ base }
    ensures directories_in { DirectoriesIn s.now work.old work.new p base result.count }
{
    let mut at = p;
    let mut n: usize = 0;
    // Stays a loop over fields: next_field says why.
    while let Some(field) = next_before_rows(s, at, DIRECTORY_TAG) {
        Span::from(field).write(work, base + n * SPAN_RECORD);
        n += 1;
        at = field.next;
    }
    Stored::new(base, n)
}

// The compilation directory of the unit whose fields follow place p; an empty span where it has none.
// Stays an empty span, as for a directory that is none, no Option: joining passes over an empty part, so both are one.
fn compilation_span(s: &[u8], p: usize) -> Span
    requires { Placed s.now p }
    ensures { CompilationIn s.now p result }
{
    let Some(field) = next_before_rows(s, p, COMPILATION_TAG) else {
        return Span::default();
    };
    Span::from(field)
}

// The version of the line header of the unit whose fields follow place p; 0 where it has none.
// Stays 0 for none, as the definition's empty header has it: a unit with no header has no files to count.
fn header_version(s: &[u8], p: usize) -> u8
    requires { Placed s.now p }
    ensures { result ≡ version_in s.now p }
{
    let Some(field) = next_before_rows(s, p, HEADER_TAG) else {
        return 0;
    };
    u8::read(s, field.start + HEADER_VERSION)
}

impl FileUnit {
    // Describes the unit at a place of a source's sheet, the spans of its directories written at base.
    pub fn describe(
        sheets: Sheets,
        source: DebugSource,
        place: usize,
        work: &mut [u8],
        base: usize,
    ) -> FileUnit
        requires unit_placed { UnitPlaced (sheet_in sheets source) place }
        requires sheet_small { length (sheet_in sheets source) < 2 ^ 32 }
        requires spans_fit { base + span_record * length (unit_here (sheet_in sheets source) place).directories ≤ length work.old }
        ensures { Described (sheet_in sheets.entry source) work.old work.new source place base result }
    {
        let s = sheets.of(source);
        let p = place + UNIT_WHOLE;
        let version = header_version(s, p);
        let compilation = compilation_span(s, p);
        let directories = index_directories(s, p, work, base);
        FileUnit {
            source,
            place,
            version,
            compilation,
            directories,
        }
    }

    // Whether files and directories are counted from 1: before version 5 there is no file 0, and directory 0 is the compilation directory.
    pub fn counts_from_one(self) -> bool
        ensures { result ≡ leb self.version 4 }
    {
        self.version <= 4
    }

    // The place, counted from 0, of the unit's file or directory of a number: before version 5 number 0 is none.
    pub fn counted(self, number: u64) -> Option<u64>
        ensures { result ≡ counted_from self.version number }
    {
        if self.counts_from_one() {
            return number.checked_sub(1);
        }
        Some(number)
    }
}
