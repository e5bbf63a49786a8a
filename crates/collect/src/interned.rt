// A unit's header, its sequences' offsets and its files, before its rows.
ghost use Rattle.std.specs.Prelude.{◌+◌, ◌*◌, ◌/◌, ◌^◌, ◌≤◌, ◌<◌, length};
ghost use Rattle.tlv.specs.Checked.{Placed};
ghost use Rattle.tlv.specs.Model.{header_of};
ghost use Rattle.tlv.specs.Tags.{unit_whole};
ghost use Rattle.access.specs.Places.{unit_here};
ghost use Rattle.line_program.specs.Scan.{Scanned, offset_record, sequence_least};
ghost use Rattle.line_program.specs.Program.{line_sequence_offsets};
ghost use Rattle.files.specs.Pieces.{header_here, UnitPlaced};
ghost use Rattle.files.specs.Store.{FilesIn};
ghost use Rattle.files.specs.Interns.{Listed};
ghost use Rattle.files.specs.Indices.{index_record};
ghost use Rattle.collect.specs.Stages.{UnitRoom, InternsUnit, ConversionOf};

use crate::convert::Conversion;
use crate::header::HeaderPayload;
use access::access::next_before_rows;
use buffers::table::Stored;
use files::index::INDEX_RECORD;
use files::sheets::Sheets;
use files::spans::{FileUnit, SPAN_RECORD};
use files::store::StoredFiles;
use line_program::lines::line_sequence_offsets;
use tlv::model::{DebugSource, FileIndex};
use tlv::refusal::Refusal;
use tlv::tags::{FILE_ZERO_TAG, UNIT_WHOLE};

// What tells the paths of the unit's files, the unit's map, and the file table.
#[derive(Clone, Copy, Debug)]
pub struct InternedUnit {
    pub unit: FileUnit,
    pub indices: Stored<FileIndex>,
    pub table: StoredFiles,
}

// Writes where the sequences of a program begin, whose header's payload is given.
pub fn scan_program(
    program: &[u8],
    header: HeaderPayload,
    work: &mut [u8],
    free: usize,
) -> Result<usize, Refusal>
    requires { free + length program.now / sequence_least * offset_record ≤ length work.old }
    ensures { Scanned program.now work.old work.new free result (line_sequence_offsets (header_of header.entry.bytes.now) program.now) }
{
    line_sequence_offsets(program, header.lengths(), header.header(), work, free)
}

// Writes the spans of the unit's directories at base, and the unit's map behind them.
// Stays beside declarations' join_files, which takes the same three steps, for a unit of either sheet, behind a test for its header (without one it
// hands back the table as it was): a method of both would have a contract as long as either, and would hand back a unit and a map, which that drops.
pub fn intern_unit(
    sheets: Sheets,
    place: usize,
    work: &mut [u8],
    files: &mut [u8],
    t: StoredFiles,
    base: usize,
) -> Result<InternedUnit, Refusal>
    requires unit_placed { UnitPlaced sheets.main.now place }
    requires files_in { FilesIn sheets.main.now sheets.supplementary.now work.old t }
    requires listed { Listed sheets.main.now sheets.supplementary.now (unit_here sheets.main.now place) (header_here sheets.main.now place) }
    requires unit_room { UnitRoom sheets.main.now work.old t place base }
    ensures { InternsUnit sheets.entry.main.now sheets.entry.supplementary.now work.old work.new files.old
        files.new place t base result }
{
    let unit = FileUnit::describe(sheets, DebugSource::Main, place, work, base);
    let at = base + unit.directories.count * SPAN_RECORD;
    let interned = t.intern_header_files(sheets, unit, work, files, at)?;
    Ok(InternedUnit {
        unit,
        indices: interned.map,
        table: interned.table,
    })
}

impl<'a> Conversion<'a> {
    // The conversion of a unit whose files were interned: its lines go behind its map.
    pub fn new(
        sheets: Sheets<'a>,
        unit: FileUnit,
        indices: Stored<FileIndex>,
        offsets: Stored<u64>,
    ) -> Conversion<'a>
        requires placed { Placed sheets.main.now (unit.place + unit_whole) }
        requires map_within { indices.base + indices.count * index_record < 2 ^ 64 }
        ensures { ConversionOf sheets.entry unit indices offsets result }
    {
        Conversion {
            sheets,
            unit,
            zero: next_before_rows(sheets.main, unit.place + UNIT_WHOLE, FILE_ZERO_TAG),
            indices,
            offsets,
            lines: indices.base + indices.count * INDEX_RECORD,
        }
    }
}
