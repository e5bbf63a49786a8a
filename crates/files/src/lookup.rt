// The number of a file of a unit that was reached by reference: looked up in the table, since such a unit's map is not kept.
ghost use Rattle.std.proofs.Math.Option.{some};
ghost use Rattle.tlv.specs.Outcome.{done};
ghost use Rattle.tlv.specs.Checked.{Placed};
ghost use Rattle.access.specs.Places.{unit_here};
ghost use Rattle.files.specs.Pieces.{file_in, PiecesIn, header_here, UnitPlaced, FileUnitIn};
ghost use Rattle.files.specs.Sheets.{sheet_in};
ghost use Rattle.files.specs.Store.{table_of, FilesIn};
ghost use Rattle.files.specs.Reached.{number_in, nth_number, NthFile, Found, LookedUp};

use crate::index::FileNumber;
use crate::pieces::FilePieces;
use crate::sheets::Sheets;
use crate::spans::{FileUnit, Span};
use crate::store::StoredFiles;
use access::access::next_before_rows;
use tlv::fields::FieldSpan;
use tlv::model::FileIndex;
use tlv::tags::{FILE_TAG, UNIT_WHOLE};

// The n-th field of a file, from a place on.
// Stays beside access' unit_by_ordinal: that walks by next_field and gives a place, this by next_before_rows and gives the field.
fn nth_file(s: &[u8], p: usize, n: u64) -> Option<FieldSpan>
    requires { Placed s.now p }
    ensures { NthFile s.now p n result }
{
    let mut at = p;
    let mut left = n;
    // Stays a loop over fields: next_field says why.
    while let Some(field) = next_before_rows(s, at, FILE_TAG) {
        if left == 0 {
            return Some(field);
        }
        left -= 1;
        at = field.next;
    }
    None
}

impl StoredFiles {
    // The table's number of the file of pieces of s; its directory is laid in the table's scratch.
    fn look_up_pieces(
        self,
        sheets: Sheets,
        s: &[u8],
        pieces: FilePieces,
        work: &mut [u8],
    ) -> Option<FileIndex>
        requires files_in { FilesIn sheets.main.now sheets.supplementary.now work.old self }
        requires pieces_in { PiecesIn s.now pieces }
        ensures { Found sheets.entry.main.now sheets.entry.supplementary.now work.old work.new self
            (number_in (table_of sheets.entry.main.now sheets.entry.supplementary.now work.old self) (done (some (file_in s.now pieces)))) result }
    {
        let laid = pieces.lay(s, work, self.scratch());
        self.laid_number(sheets, s, pieces, work, laid)
    }

    // The table's number of the n-th file of a unit of s.
    fn look_up_nth(
        self,
        sheets: Sheets,
        s: &[u8],
        unit: FileUnit,
        n: u64,
        work: &mut [u8],
    ) -> Option<FileIndex>
        requires files_in { FilesIn sheets.main.now sheets.supplementary.now work.old self }
        requires file_unit_in { FileUnitIn s.now work.old unit }
        requires unit_placed { UnitPlaced s.now unit.place }
        ensures { Found sheets.entry.main.now sheets.entry.supplementary.now work.old work.new self
            (nth_number (unit_here s.now unit.place) (header_here s.now unit.place)
            (table_of sheets.entry.main.now sheets.entry.supplementary.now work.old self) n) result }
    {
        let field = nth_file(s, unit.place + UNIT_WHOLE, n)?;
        let pieces = unit.file_pieces(s, work, Span::from(field)).ok()??;
        self.look_up_pieces(sheets, s, pieces, work)
    }

    // The table's number for one of DWARF's, of a unit whose files are in the table: before version 5 there is no file 0.
    pub fn look_up_file(
        self,
        sheets: Sheets,
        unit: FileUnit,
        number: FileNumber,
        work: &mut [u8],
    ) -> Option<FileIndex>
        requires files_in { FilesIn sheets.main.now sheets.supplementary.now work.old self }
        requires file_unit_in { FileUnitIn (sheet_in sheets unit.source) work.old unit }
        requires unit_placed { UnitPlaced (sheet_in sheets unit.source) unit.place }
        ensures { LookedUp sheets.entry.main.now sheets.entry.supplementary.now work.old work.new self
            (sheet_in sheets.entry unit.source) unit number result }
    {
        let s = sheets.of(unit.source);
        let n = unit.counted(number.0)?;
        self.look_up_nth(sheets, s, unit, n, work)
    }
}
