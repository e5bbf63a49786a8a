// The lines of a unit (the Rust's collect_lines): failed rows, or the faults of a program that gives rows, before those of the scan before file paths.
ghost use Rattle.std.specs.Prelude.{◌+◌, ◌*◌, ◌≤◌, length};
ghost use Rattle.tlv.specs.Checked.{Placed};
ghost use Rattle.tlv.specs.Tags.{unit_whole};
ghost use Rattle.files.specs.Store.{FilesIn};
ghost use Rattle.rows.specs.Sizes.{entry_size, row_room};
ghost use Rattle.collect.specs.Sources.{source_rows, most_rows};
ghost use Rattle.collect.specs.Converts.{ConversionIn};
ghost use Rattle.collect.specs.Stages.{UnitFound, FinishesLines};
ghost use Rattle.collect.specs.Collects.{UnitIn, LinesRoom, CollectsLines};

use crate::convert::Conversion;
use crate::header::HeaderPayload;
use crate::interned::{intern_unit, scan_program};
use crate::source::{UnitProgram, gather_unit_rows, row_fault, row_source};
use buffers::table::Stored;
use files::sheets::Sheets;
use files::store::StoredFiles;
use line_program::lines::OFFSET_RECORD;
use rows::unit_lines::StoredLines;
use tlv::model::FileIndex;
use tlv::refusal::Refusal;
use tlv::tags::{HEADER_TAG, UNIT_WHOLE};

// The unit whose lines are collected: both sheets, the bytes of its line program, its place in the main sheet,
// and the first free place of the work slice.
#[derive(Clone, Copy, Debug)]
pub struct LineUnit<'a> {
    pub sheets: Sheets<'a>,
    pub program: &'a [u8],
    pub place: usize,
    pub free: usize,
}

// The unit's lines and its map of file numbers in the work slice, the file table, and how many bytes of warnings were written.
#[derive(Clone, Copy, Debug)]
pub struct CollectedLines {
    pub lines: StoredLines,
    pub indices: Stored<FileIndex>,
    pub table: StoredFiles,
    pub warned: usize,
}

impl Conversion<'_> {
    // Gathers the unit's rows, which go above its lines, and makes these of them.
    // Stays with what is lent apart: `Outputs`, which is of a crate above, has a tray of records too, of which each here would have to promise that it
    // stays; one of files and warnings alone would be made of `Outputs` for each unit, and taken apart for intern_unit and convert_line. And with the table
    // and the warnings' place apart: intern_unit takes and grows the first, before there is anything to warn of.
    fn collect_rows(
        self,
        source: Option<UnitProgram>,
        work: &mut [u8],
        files: &mut [u8],
        warnings: &mut [u8],
        t: StoredFiles,
        warned: usize,
    ) -> Result<CollectedLines, Refusal>
        requires conversion_in { ConversionIn self.sheets.main.now self.sheets.supplementary.now work.old self
            (record { table = t; count = 0; warned = warned }) }
        requires lines_fit { self.lines + row_room * most_rows self.sheets.main.now (self.unit.place + unit_whole) source
            + entry_size ≤ length work.old }
        ensures { let main = self.entry.sheets.main.now in
            let p = self.entry.unit.place + unit_whole in
            FinishesLines (source_rows main p source.entry) (most_rows main p source.entry) main self.entry.sheets.supplementary.now
            work.old work.new files.old files.new warnings.old warnings.new self.entry t warned result }
    {
        let p = self.unit.place + UNIT_WHOLE;
        let gathered = gather_unit_rows(self.sheets.main, p, source, work, self.lines)?;
        self.finish_lines(gathered, work, files, warnings, t, warned)
    }
}

// Collects the lines of a unit, whose header's payload is given. Its rows are read last, since their table goes behind its map;
// their fault comes first all the same.
fn collect_header(
    u: LineUnit,
    header: HeaderPayload,
    work: &mut [u8],
    files: &mut [u8],
    warnings: &mut [u8],
    t: StoredFiles,
    warned: usize,
) -> Result<CollectedLines, Refusal>
    requires { UnitFound u.sheets.main.now u.sheets.supplementary.now u.program.now work.old t u.place header.bytes.now u.free }
    ensures { CollectsLines u.entry.sheets.main.now u.entry.sheets.supplementary.now u.entry.program.now work.old work.new
        files.old files.new warnings.old warnings.new u.entry.place t warned u.entry.free result }
{
    let main = u.sheets.main;
    let p = u.place + UNIT_WHOLE;
    let source = row_source(main, p, header, u.program);
    // Stays a match, as the one below: the closure of a `map_err` would write the work slice, and nothing would be known of that slice afterwards.
    let count = match scan_program(u.program, header, work, u.free) {
        Ok(count) => count,
        Err(later) => {
            return Err(row_fault(main, p, source, work, u.free).unwrap_or(later));
        }
    };
    let base = u.free + count * OFFSET_RECORD;
    // Stays a match for the same reason.
    let interned = match intern_unit(u.sheets, u.place, work, files, t, base) {
        Ok(interned) => interned,
        Err(later) => {
            return Err(row_fault(main, p, source, work, u.free).unwrap_or(later));
        }
    };
    let offsets = Stored::new(u.free, count);
    let c = Conversion::new(u.sheets, interned.unit, interned.indices, offsets);
    c.collect_rows(source, work, files, warnings, interned.table, warned)
}

// Collects the lines of a unit, from the first free place of the work slice on.
pub fn collect_lines(
    u: LineUnit,
    work: &mut [u8],
    files: &mut [u8],
    warnings: &mut [u8],
    t: StoredFiles,
    warned: usize,
) -> Result<CollectedLines, Refusal>
    requires placed { Placed u.sheets.main.now 0 }
    requires unit_in { UnitIn u.sheets.main.now u.place }
    requires files_in { FilesIn u.sheets.main.now u.sheets.supplementary.now work.old t }
    requires lines_room { LinesRoom u.sheets.main.now work.old u.program.now t u.place u.free }
    ensures { CollectsLines u.entry.sheets.main.now u.entry.sheets.supplementary.now u.entry.program.now work.old work.new
        files.old files.new warnings.old warnings.new u.entry.place t warned u.entry.free result }
{
    let main = u.sheets.main;
    let free = u.free;
    let Some(field) = access::access::next_own(main, u.place + UNIT_WHOLE, HEADER_TAG) else {
        return Ok(CollectedLines {
            lines: StoredLines {
                lines: Stored::new(free, 0),
                sequences: Stored::new(free, 0),
                buffer: free,
            },
            indices: Stored::new(free, 0),
            table: t,
            warned,
        });
    };
    let header = HeaderPayload {
        bytes: field.payload(main),
    };
    collect_header(u, header, work, files, warnings, t, warned)
}
