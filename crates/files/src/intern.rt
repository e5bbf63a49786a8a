// A unit's files join the table (the Rust's intern_file and intern_header_files).
ghost use Rattle.std.specs.Prelude.{◌≡◌};
ghost use Rattle.tlv.specs.Tags.{file_tag};
ghost use Rattle.tlv.specs.Checked.{Placed};
ghost use Rattle.access.specs.Places.{unit_here};
ghost use Rattle.access.specs.Access.{NextOwn};
ghost use Rattle.files.specs.Pieces.{header_here, FileUnitIn, FileSpanIn, Pieced};
ghost use Rattle.files.specs.Sheets.{sheet_in};
ghost use Rattle.files.specs.Store.{FilesIn};
ghost use Rattle.files.specs.Interns.{Listed, OfUnit, Interns};

use crate::sheets::Sheets;
use crate::spans::{FileUnit, Span};
use crate::store::{AddedFile, StoredFiles};
use tlv::refusal::Refusal;

impl StoredFiles {
    // Interns a file of a unit's header; one that has no path adds nothing.
    // Stays with sheets, unit and what is written apart: intern_at of the headers says why.
    pub fn intern_file(
        self,
        sheets: Sheets,
        unit: FileUnit,
        file: Span,
        work: &mut [u8],
        files: &mut [u8],
    ) -> Result<Option<AddedFile>, Refusal>
        requires files_in { FilesIn sheets.main.now sheets.supplementary.now work.old self }
        requires file_unit_in { FileUnitIn (sheet_in sheets unit.source) work.old unit }
        requires file_span_in { FileSpanIn (sheet_in sheets unit.source) file }
        requires of_unit { OfUnit (sheet_in sheets unit.source) unit.place file }
        requires listed { Listed sheets.main.now sheets.supplementary.now (unit_here (sheet_in sheets unit.source) unit.place)
            (header_here (sheet_in sheets unit.source) unit.place) }
        ensures { Interns sheets.entry.main.now sheets.entry.supplementary.now work.old work.new files.old files.new
            self (sheet_in sheets.entry unit.source) unit file result }
    {
        let s = sheets.of(unit.source);
        let Some(pieces) = unit.file_pieces(s, work, file)? else {
            return Ok(None);
        };
        let added = self.add_file(sheets, unit.source, pieces, work, files)?;
        Ok(Some(added))
    }
}
