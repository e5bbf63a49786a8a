// The queries of two sheets: the three searches from an entry, each with how many entries it read.
ghost use Rattle.references.specs.Tables.{EntryKnown};
ghost use Rattle.search_answers.specs.Searches.{Ready};

use crate::output::{end_line, write_declared, write_found};
use access::index::EntryPlace;
use declarations::declaration_lines::resolve_declaration_line_counted;
use declarations::declaring::{DeclaringState, Places};
use files::store::StoredFiles;
use references::names::resolve_name_counted;
use references::reference_names::resolve_reference_name_counted;
use references::trails::Trail;
use std::io::{self, Write};
use tlv::bytes::Number;
use tlv::constants::DW_AT_CALL_ORIGIN;

// A query: its kind (1 byte), the offset of an entry in the section (8).
const QUERY_SIZE: usize = 9;

const QUERY_OFFSET: usize = 1;

// Its kinds; any other asks for the declaration.
const NAME_QUERY: u8 = 1;

const REFERENCE_QUERY: u8 = 2;

// Two sheets and where their tables stand in the work slice, and how many files there is room for.
#[derive(Clone, Copy, Debug)]
pub struct Searches<'a> {
    pub places: Places<'a>,
    pub files: usize,
}

impl Searches<'_> {
    // The name of an entry.
    fn answer_name(self, out: &mut impl Write, work: &mut [u8], entry: EntryPlace) -> io::Result<()>
        requires searches_in { Ready self work.old }
        requires entry_known { EntryKnown self.places.tables.sheets.main.now entry.unit entry.place }
        ensures { Ready self.entry work.new }
    {
        write_found(out, resolve_name_counted(work, self.places.tables, entry))
    }

    // The name that its call origin refers to.
    fn answer_reference(
        self,
        out: &mut impl Write,
        work: &mut [u8],
        entry: EntryPlace,
    ) -> io::Result<()>
        requires searches_in { Ready self work.old }
        requires entry_known { EntryKnown self.places.tables.sheets.main.now entry.unit entry.place }
        ensures { Ready self.entry work.new }
    {
        let tables = self.places.tables;
        let found = resolve_reference_name_counted(work, tables, entry, DW_AT_CALL_ORIGIN);
        write_found(out, found)
    }

    // Its declaration, from an empty table of files on. What would be written to the trays is not asked for: they are empty.
    fn answer_declaration(
        self,
        out: &mut impl Write,
        work: &mut [u8],
        entry: EntryPlace,
    ) -> io::Result<()>
        requires searches_in { Ready self work.old }
        requires entry_known { EntryKnown self.places.tables.sheets.main.now entry.unit entry.place }
        ensures { Ready self.entry work.new }
    {
        let places = self.places;
        let from = DeclaringState {
            trail: Trail::start(),
            table: StoredFiles::new(places.tables.sheets, work, 0, self.files, 1, 0),
            warned: 0,
        };
        let declared = resolve_declaration_line_counted(
            work,
            &mut [],
            &mut [],
            places,
            entry,
            from,
        );
        write_declared(out, declared)
    }

    // What a query asks of the entry at its offset.
    fn answer_query(
        self,
        out: &mut impl Write,
        query: &[u8; QUERY_SIZE],
        work: &mut [u8],
    ) -> io::Result<()>
        requires { Ready self work.old }
        ensures { Ready self.entry work.new }
    {
        let tables = self.places.tables;
        let offset = u64::read(query, QUERY_OFFSET);
        let Ok(Some(entry)) = tables.main.target_at(tables.sheets.main, work, offset) else {
            return write!(out, "no entry");
        };
        // Stays a match: the kind is a byte of the input, and each kind has a search of its own.
        match query[0] {
            NAME_QUERY => self.answer_name(out, work, entry),
            REFERENCE_QUERY => self.answer_reference(out, work, entry),
            _ => self.answer_declaration(out, work, entry),
        }
    }

    // A line for each query.
    // Stays beside line_answers' and look_answers' `answer_queries`: alike is one loop, and each answers by what it is lent.
    pub fn answer_queries(
        self,
        out: &mut impl Write,
        queries: &[u8],
        work: &mut [u8],
    ) -> io::Result<()>
        requires { Ready self work.old }
    {
        let (queries, _) = queries.as_chunks::<QUERY_SIZE>();
        for query in queries {
            self.answer_query(out, query, work)?;
            end_line(out)?;
        }
        Ok(())
    }
}
