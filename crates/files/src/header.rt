// The files of a unit's header.
ghost use Rattle.std.specs.Prelude.{◌≡◌, ◌+◌, ◌≤◌, length};
ghost use Rattle.access.specs.Places.{unit_here};
ghost use Rattle.files.specs.Pieces.{header_here, UnitPlaced, FileUnitIn, FileSpanIn};
ghost use Rattle.files.specs.Sheets.{sheet_in};
ghost use Rattle.files.specs.Store.{extent, FilesIn};
ghost use Rattle.files.specs.Interns.{Listed, OfUnit, InternsAt, MapRoom, InternsFiles, InternsHeader};

use crate::index::{INDEX_RECORD, put_index};
use crate::sheets::Sheets;
use crate::spans::{FileUnit, Span};
use crate::store::{AddedFile, StoredFiles};
use access::access::next_before_rows;
use buffers::table::Stored;
use tlv::model::FileIndex;
use tlv::refusal::Refusal;
use tlv::tags::{FILE_TAG, UNIT_WHOLE};

// The table with a header's files in it, and the unit's map.
#[derive(Clone, Copy, Debug)]
pub struct InternedFiles {
    pub table: StoredFiles,
    pub map: Stored<FileIndex>,
}

impl StoredFiles {
    // Interns a file of a unit's header, and writes its number at a place of the unit's map.
    // Stays with sheets, unit and what is written apart, as those below, intern_file and look_up_nth: FilesIn and add_file speak of the sheets with no
    // unit, and one that held them would be taken apart for both.
    fn intern_at(
        self,
        sheets: Sheets,
        unit: FileUnit,
        file: Span,
        work: &mut [u8],
        files: &mut [u8],
        at: usize,
    ) -> Result<Option<AddedFile>, Refusal>
        requires files_in { FilesIn sheets.main.now sheets.supplementary.now work.old self }
        requires file_unit_in { FileUnitIn (sheet_in sheets unit.source) work.old unit }
        requires file_span_in { FileSpanIn (sheet_in sheets unit.source) file }
        requires of_unit { OfUnit (sheet_in sheets unit.source) unit.place file }
        requires listed { Listed sheets.main.now sheets.supplementary.now (unit_here (sheet_in sheets unit.source) unit.place)
            (header_here (sheet_in sheets unit.source) unit.place) }
        requires map_in_bounds { (self.base + extent self ≤ at) × (at + 5 ≤ length work.old) }
        ensures { InternsAt sheets.entry.main.now sheets.entry.supplementary.now work.old work.new files.old
            files.new self (sheet_in sheets.entry unit.source) unit file at result }
    {
        let added = self.intern_file(sheets, unit, file, work, files)?;
        put_index(work, at, added.map(|a| a.number));
        Ok(added)
    }

    // Interns the files of a unit's header in order, and writes their numbers to the unit's map, behind its records so far.
    fn intern_files(
        self,
        sheets: Sheets,
        unit: FileUnit,
        work: &mut [u8],
        files: &mut [u8],
        map: Stored<FileIndex>,
    ) -> Result<InternedFiles, Refusal>
        requires files_in { FilesIn sheets.main.now sheets.supplementary.now work.old self }
        requires file_unit_in { FileUnitIn (sheet_in sheets unit.source) work.old unit }
        requires unit_placed { UnitPlaced (sheet_in sheets unit.source) unit.place }
        requires listed { Listed sheets.main.now sheets.supplementary.now (unit_here (sheet_in sheets unit.source) unit.place)
            (header_here (sheet_in sheets unit.source) unit.place) }
        requires map_room { MapRoom (sheet_in sheets unit.source) work.old self unit map.base }
        requires one_at_most { map.count ≤ 1 }
        ensures { InternsFiles sheets.entry.main.now sheets.entry.supplementary.now work.old work.new files.old
            files.new self (sheet_in sheets.entry unit.source) unit map.base map.count result }
    {
        let s = sheets.of(unit.source);
        let mut table = self;
        let mut count = map.count;
        let mut p = unit.place + UNIT_WHOLE;
        // Stays a loop over fields: next_field says why.
        while let Some(field) = next_before_rows(s, p, FILE_TAG) {
            let file = Span::from(field);
            let at = map.base + count * INDEX_RECORD;
            let added = table.intern_at(sheets, unit, file, work, files, at)?;
            if let Some(file) = added {
                table = file.table;
            }
            count += 1;
            p = field.next;
        }
        Ok(InternedFiles {
            table,
            map: Stored::new(map.base, count),
        })
    }

    // Interns the files of a unit's header in order, and writes the unit's map at base.
    pub fn intern_header_files(
        self,
        sheets: Sheets,
        unit: FileUnit,
        work: &mut [u8],
        files: &mut [u8],
        base: usize,
    ) -> Result<InternedFiles, Refusal>
        requires files_in { FilesIn sheets.main.now sheets.supplementary.now work.old self }
        requires file_unit_in { FileUnitIn (sheet_in sheets unit.source) work.old unit }
        requires unit_placed { UnitPlaced (sheet_in sheets unit.source) unit.place }
        requires listed { Listed sheets.main.now sheets.supplementary.now (unit_here (sheet_in sheets unit.source) unit.place)
            (header_here (sheet_in sheets unit.source) unit.place) }
        requires map_room { MapRoom (sheet_in sheets unit.source) work.old self unit base }
        ensures { InternsHeader sheets.entry.main.now sheets.entry.supplementary.now work.old work.new files.old
            files.new self (sheet_in sheets.entry unit.source) unit base result }
    {
        if unit.counts_from_one() {
            put_index(work, base, None);
            return self.intern_files(sheets, unit, work, files, Stored::new(base, 1));
        }
        self.intern_files(sheets, unit, work, files, Stored::new(base, 0))
    }
}
