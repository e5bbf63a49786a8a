// Rows become lines of the unit: the file of each is found or interned; a row that has none, or too large a line, gives a warning.
ghost use Rattle.std.specs.Prelude.{◌≡◌, ◌+◌, ◌*◌, ◌≤◌, length};
ghost use Rattle.std.proofs.Math.Option.{none};
ghost use Rattle.line_program.specs.Scan.{offset_record};
ghost use Rattle.lines.specs.Files.{get};
ghost use Rattle.files.specs.Indices.{indices_in, index_record};
ghost use Rattle.rows.specs.Sizes.{line_size};
ghost use Rattle.collect.specs.Converts.{ConversionIn, sought_of, AppendsLine, LineConverted, ConvertsKnown, RowConverts};

use crate::passes::sequence_offset;
use crate::sought::SoughtFile;
use buffers::output::put_warning;
use buffers::table::Stored;
use buffers::warning::WarningKind;
use files::index::FileNumber;
use files::sheets::Sheets;
use files::spans::{FileUnit, Span};
use files::store::StoredFiles;
use rows::line::{LINE_SIZE, SequencedLine};
use tlv::fields::FieldSpan;
use tlv::model::{FileIndex, LineEntry};
use tlv::refusal::Refusal;

// Both sheets, the unit, its file 0 before version 5, its map of file numbers, the table of its sequences' offsets, and where its lines go.
#[derive(Clone, Copy, Debug)]
pub struct Conversion<'a> {
    pub sheets: Sheets<'a>,
    pub unit: FileUnit,
    pub zero: Option<FieldSpan>,
    pub indices: Stored<FileIndex>,
    pub offsets: Stored<u64>,
    pub lines: usize,
}

// The file table, how many lines there are, and how many bytes of warnings were written.
// Stays a count: where the lines go is the Conversion's and fixed, and the count alone moves, as with dies' Sites.
#[derive(Clone, Copy, Debug)]
pub struct Converting {
    pub table: StoredFiles,
    pub count: usize,
    pub warned: usize,
}

// A row with the number of its sequence.
// Stays beside tlv's LineEntry, whose file is the table's number and whose line has 32 bits, and machine's Registers, with a wider column and no sequence.
#[derive(Clone, Copy, Debug)]
pub struct Row {
    pub address: u64,
    pub file: FileNumber,
    pub line: u64,
    pub column: u16,
    pub sequence: usize,
}

impl Conversion<'_> {
    // Appends the line of a row whose file has a number; whether it fits 32 bits.
    // Stays a clause, as do those below that bound the work slice: it is lent and written, so no value holds the fact.
    fn append_line(self, row: Row, index: FileIndex, work: &mut [u8], count: usize) -> bool
        requires offsets_within { self.offsets.base + self.offsets.count * offset_record ≤ length work.old }
        requires line_fits { self.lines + count * line_size + line_size ≤ length work.old }
        ensures { AppendsLine work.old work.new self.entry row index count result }
    {
        let Ok(line) = u32::try_from(row.line) else {
            return false;
        };
        let converted = SequencedLine {
            entry: LineEntry {
                address: row.address,
                file: index,
                line,
                column: row.column,
            },
            statement_sequence: sequence_offset(work, self.offsets, row.sequence),
        };
        converted.write(work, self.lines + count * LINE_SIZE);
        true
    }

    // Converts a row whose file has a number: its line is appended, or one past 32 bits warns.
    // Stays with what is lent apart, as collect_rows says: this writes no files, of which it would have to promise that they stay.
    fn convert_line(
        self,
        row: Row,
        index: FileIndex,
        work: &mut [u8],
        warnings: &mut [u8],
        st: Converting,
    ) -> Converting
        requires offsets_within { self.offsets.base + self.offsets.count * offset_record ≤ length work.old }
        requires line_fits { self.lines + st.count * line_size + line_size ≤ length work.old }
        ensures { LineConverted work.old work.new warnings.old warnings.new self.entry st row index result }
    {
        if self.append_line(row, index, work, st.count) {
            return Converting {
                count: st.count + 1,
                ..st
            };
        }
        Converting {
            warned: put_warning(
                warnings,
                st.warned,
                WarningKind::UnrepresentableLine.number(),
                row.address,
                row.line,
            ),
            ..st
        }
    }

    // Converts a row of file 0 before version 5, which has no number yet.
    fn convert_zero(
        self,
        row: Row,
        file: Span,
        work: &mut [u8],
        files: &mut [u8],
        warnings: &mut [u8],
        st: Converting,
    ) -> Result<Converting, Refusal>
        requires conversion_in { ConversionIn self.sheets.main.now self.sheets.supplementary.now work.old self st }
        requires line_fits { self.lines + st.count * line_size + line_size ≤ length work.old }
        requires unnumbered { get (indices_in work.old self.indices) row.file.0 ≡ none }
        requires file_zero { SoughtFile.Zero file ≡ sought_of self row.file.0 }
        ensures { RowConverts self.entry.sheets.main.now self.entry.sheets.supplementary.now work.old work.new files.old
            files.new warnings.old warnings.new self.entry st row result }
    {
        let Some(added) = st
            .table
            .intern_file(self.sheets, self.unit, file, work, files)?
        else {
            return Ok(st);
        };
        files::index::insert_index(work, self.indices, row.file, added.number);
        let grown = Converting {
            table: added.table,
            ..st
        };
        Ok(self.convert_line(row, added.number, work, warnings, grown))
    }

    // Converts a row whose file has no number in the unit's map.
    fn convert_unknown(
        self,
        row: Row,
        work: &mut [u8],
        files: &mut [u8],
        warnings: &mut [u8],
        st: Converting,
    ) -> Result<Converting, Refusal>
        requires conversion_in { ConversionIn self.sheets.main.now self.sheets.supplementary.now work.old self st }
        requires line_fits { self.lines + st.count * line_size + line_size ≤ length work.old }
        requires unnumbered { get (indices_in work.old self.indices) row.file.0 ≡ none }
        ensures { RowConverts self.entry.sheets.main.now self.entry.sheets.supplementary.now work.old work.new files.old
            files.new warnings.old warnings.new self.entry st row result }
    {
        match self.sought_file(row.file) {
            SoughtFile::Missing => Ok(Converting {
                warned: put_warning(
                    warnings,
                    st.warned,
                    WarningKind::MissingLineFile.number(),
                    row.address,
                    row.file.0,
                ),
                ..st
            }),
            SoughtFile::Unnamed => Ok(st),
            SoughtFile::Zero(file) => self.convert_zero(row, file, work, files, warnings, st),
        }
    }

    // Converts a row.
    pub fn convert_row(
        self,
        row: Row,
        work: &mut [u8],
        files: &mut [u8],
        warnings: &mut [u8],
        st: Converting,
    ) -> Result<Converting, Refusal>
        requires conversion_in { ConversionIn self.sheets.main.now self.sheets.supplementary.now work.old self st }
        requires line_fits { self.lines + st.count * line_size + line_size ≤ length work.old }
        ensures { RowConverts self.entry.sheets.main.now self.entry.sheets.supplementary.now work.old work.new files.old
            files.new warnings.old warnings.new self.entry st row result }
    {
        let Some(index) = files::index::get_index(work, self.indices, row.file) else {
            return self.convert_unknown(row, work, files, warnings, st);
        };
        Ok(self.convert_line(row, index, work, warnings, st))
    }

    // Appends the line of a row whose file has a number in the unit's map and whose line fits 32 bits; whether it did.
    pub fn convert_known(self, row: Row, work: &mut [u8], count: usize) -> bool
        requires map_within { self.indices.base + self.indices.count * index_record ≤ length work.old }
        requires offsets_within { self.offsets.base + self.offsets.count * offset_record ≤ length work.old }
        requires line_fits { self.lines + count * line_size + line_size ≤ length work.old }
        ensures { ConvertsKnown work.old work.new self.entry row count result }
    {
        let Some(index) = files::index::get_index(work, self.indices, row.file) else {
            return false;
        };
        self.append_line(row, index, work, count)
    }
}
