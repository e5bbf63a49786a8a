// The two walks over a unit's rows: what they become as lines, and where their sequences lie.
ghost use Rattle.std.proofs.Math.Option.{none};
ghost use Rattle.std.specs.Prelude.{◌≡◌, ◌+◌, ◌*◌, ◌≤◌, length};
ghost use Rattle.line_program.specs.Scan.{offset_record};
ghost use Rattle.rows.specs.Sizes.{line_size, sequence_range_size};
ghost use Rattle.collect.specs.Passes.{sequences_from, SequencesIn};
ghost use Rattle.collect.specs.Sources.{rows_here, RowsReady};
ghost use Rattle.collect.specs.Converts.{ConversionIn, RowsConvert};

use crate::convert::{Conversion, Converting};
use crate::passes::put_sequence_record;
use crate::unit_rows::UnitRows;
use buffers::table::Stored;
use rows::line::{LineSequenceRange, SEQUENCE_RANGE_SIZE};
use tlv::model::AddressRange;
use tlv::refusal::Refusal;

impl Conversion<'_> {
    // Converts `left` of the unit's rows, from the first on.
    pub fn convert_rows(
        self,
        rows: UnitRows,
        left: usize,
        work: &mut [u8],
        files: &mut [u8],
        warnings: &mut [u8],
        st: Converting,
    ) -> Result<Converting, Refusal>
        requires rows_ready { RowsReady self.sheets.main.now work.old (self.lines + st.count * line_size + left * line_size) rows }
        requires conversion_in { ConversionIn self.sheets.main.now self.sheets.supplementary.now work.old self st }
        requires lines_fit { self.lines + st.count * line_size + left * line_size ≤ length work.old }
        ensures { RowsConvert (rows_here self.entry.sheets.main.now work.old rows) self.entry.sheets.main.now
            self.entry.sheets.supplementary.now work.old work.new files.old files.new warnings.old
            warnings.new self.entry st left result }
    {
        let mut rest = rows;
        let mut sequence = 0;
        let mut more = left;
        let mut state = st;
        // Stays a loop: an iterator would hold the work slice, where rows may stand, and lines are written meanwhile.
        while let Some(found) = rest.first(self.sheets.main, work, sequence) {
            if more == 0 {
                return Ok(state);
            }
            rest = found.rest;
            if found.ends {
                sequence += 1;
            } else if self.convert_known(found.row, work, state.count) {
                state.count += 1;
                more -= 1;
            } else {
                state = self.convert_row(found.row, work, files, warnings, state)?;
                more -= 1;
            }
        }
        Ok(state)
    }
}

// Writes a record for each sequence of the unit's rows that has a range, and returns their table.
pub fn collect_sequences(
    main: &[u8],
    rows: UnitRows,
    work: &mut [u8],
    offsets: Stored<u64>,
    base: usize,
) -> Stored<LineSequenceRange>
    requires rows_ready { RowsReady main.now work.old (base + sequence_range_size * length (sequences_from (rows_here main.now work.old rows) 0 none)) rows }
    requires offsets_below { offsets.base + offsets.count * offset_record ≤ base }
    requires sequences_fit { base + sequence_range_size * length (sequences_from (rows_here main.now work.old rows) 0 none) ≤ length work.old }
    ensures based { result.base ≡ base }
    ensures sequences_in { SequencesIn (rows_here main.now work.old rows) work.old work.new offsets.base offsets.count base result.count }
{
    let mut rest = rows;
    let mut k = 0;
    let mut start: Option<u64> = None;
    let mut count = 0;
    // Stays a loop: an iterator would hold the work slice, where rows may stand, and sequences are written meanwhile.
    while let Some(found) = rest.first(main, work, k) {
        let address = found.row.address;
        rest = found.rest;
        if found.ends {
            let range = AddressRange {
                start: start.unwrap_or(0),
                end: address,
            };
            if !range.is_empty() {
                put_sequence_record(work, offsets, k, base + count * SEQUENCE_RANGE_SIZE, range);
                count += 1;
            }
            k += 1;
            start = None;
        } else {
            start = start.or(Some(address));
        }
    }
    Stored::new(base, count)
}
