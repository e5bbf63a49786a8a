// A unit's lines behind its converted rows: sorted, with their sequences and their warnings.
ghost use Rattle.std.proofs.Math.Option.{none};
ghost use Rattle.std.specs.Prelude.{◌+◌, ◌*◌, ◌≤◌, length};
ghost use Rattle.tlv.specs.Outcome.{done};
ghost use Rattle.buffers.specs.Buffer.{Put};
ghost use Rattle.buffers.specs.Output.{warnings_bytes};
ghost use Rattle.line_program.specs.Scan.{offset_record};
ghost use Rattle.lines.specs.Lines.{mismatch};
ghost use Rattle.rows.specs.Sizes.{entry_size, line_size, sequence_range_size, row_room};
ghost use Rattle.collect.specs.Passes.{RowsCounted, sequences_from};
ghost use Rattle.collect.specs.Sources.{rows_here, RowsReady};
ghost use Rattle.collect.specs.Converts.{ConversionIn};
ghost use Rattle.collect.specs.Stages.{StoresLines, FinishesLines};

use crate::collect::CollectedLines;
use crate::convert::{Conversion, Converting};
use crate::source::GatheredRows;
use crate::unit_rows::UnitRows;
use crate::walks::collect_sequences;
use buffers::output::put_warning;
use buffers::table::Stored;
use buffers::warning::WarningKind;
use files::store::StoredFiles;
use rows::line::{LINE_SIZE, SEQUENCE_RANGE_SIZE};
use rows::normalize::dedup_rows;
use rows::sort::sort_rows;
use rows::unit_lines::StoredLines;
use tlv::refusal::Refusal;

// Warns where the program and the rows differ in how many sequences they have.
fn warn_mismatch(warnings: &mut [u8], warned: usize, sequences: usize, offsets: usize) -> usize
    ensures { Put warned (warnings_bytes (mismatch sequences offsets)) warnings.old warnings.new result }
{
    if offsets == sequences {
        return warned;
    }
    put_warning(
        warnings,
        warned,
        WarningKind::LineSequenceMismatch.number(),
        sequences as u64,
        offsets as u64,
    )
}

impl Conversion<'_> {
    // Writes the unit's sequences behind its lines, sorts these and drops equal neighbours. A table of its rows may be overwritten by the sort.
    fn store_lines(self, rows: UnitRows, work: &mut [u8], count: usize) -> StoredLines
        requires rows_ready { RowsReady self.sheets.main.now work.old (self.lines + count * line_size
            + sequence_range_size * length (sequences_from (rows_here self.sheets.main.now work.old rows) 0 none)) rows }
        requires offsets_below { self.offsets.base + self.offsets.count * offset_record ≤ self.lines }
        requires lines_fit { self.lines + count * row_room + sequence_range_size * length (sequences_from
            (rows_here self.sheets.main.now work.old rows) 0 none) + entry_size ≤ length work.old }
        ensures { StoresLines (rows_here self.entry.sheets.main.now work.old rows) work.old
            work.new self.entry.offsets.base self.entry.offsets.count self.entry.lines count result }
    {
        let converted = Stored::new(self.lines, count);
        let at = self.lines + count * LINE_SIZE;
        let sequences = collect_sequences(self.sheets.main, rows, work, self.offsets, at);
        let buffer = at + sequences.count * SEQUENCE_RANGE_SIZE;
        sort_rows(work, converted, buffer);
        let left = dedup_rows(work, converted);
        StoredLines {
            lines: Stored::new(self.lines, left),
            sequences,
            buffer,
        }
    }

    // Converts the unit's rows that were gathered, and stores its lines and its sequences.
    pub fn finish_lines(
        self,
        given: GatheredRows,
        work: &mut [u8],
        files: &mut [u8],
        warnings: &mut [u8],
        t: StoredFiles,
        warned: usize,
    ) -> Result<CollectedLines, Refusal>
        requires conversion_in { ConversionIn self.sheets.main.now self.sheets.supplementary.now work.old self
            (record { table = t; count = 0; warned = warned }) }
        requires rows_ready { RowsReady self.sheets.main.now work.old
            (self.lines + line_size * length (rows_here self.sheets.main.now work.old given.rows)) given.rows }
        requires rows_counted { RowsCounted (rows_here self.sheets.main.now work.old given.rows) given.counted.lines given.counted.sequences }
        requires lines_fit { self.lines + row_room * length (rows_here self.sheets.main.now work.old given.rows)
            + entry_size ≤ length work.old }
        ensures { FinishesLines (done (rows_here self.entry.sheets.main.now work.old given.rows))
            (length (rows_here self.entry.sheets.main.now work.old given.rows)) self.entry.sheets.main.now
            self.entry.sheets.supplementary.now work.old work.new files.old files.new warnings.old
            warnings.new self.entry t warned result }
    {
        let begun = Converting {
            table: t,
            count: 0,
            warned: warn_mismatch(
                warnings,
                warned,
                given.counted.sequences,
                self.offsets.count,
            ),
        };
        let st = self.convert_rows(
            given.rows,
            given.counted.lines,
            work,
            files,
            warnings,
            begun,
        )?;
        let lines = self.store_lines(given.rows, work, st.count);
        Ok(CollectedLines {
            lines,
            indices: self.indices,
            table: st.table,
            warned: st.warned,
        })
    }
}
