// The files of a unit that a declaration search reaches.
ghost use Rattle.access.specs.Places.{unit_here};
ghost use Rattle.files.specs.Sheets.{sheet_in};
ghost use Rattle.declarations.specs.Declarations.{DeclaringIn};
ghost use Rattle.declarations.specs.DeclaredSteps.{UnitKnown, Joins};

use crate::declaring::{DeclaringState, Places};
use crate::own_declarations::lacks_header;
use files::spans::{FileUnit, SPAN_RECORD};
use files::store::StoredFiles;
use tlv::model::DebugSource;
use tlv::refusal::Refusal;

// The files of a unit that is reached by a section offset join the table, which is handed back.
pub fn join_files(
    work: &mut [u8],
    files: &mut [u8],
    d: &Places,
    input: DebugSource,
    unit: usize,
    st: DeclaringState,
) -> Result<StoredFiles, Refusal>
    requires declaring_in { DeclaringIn d.now.tables.sheets.main.now d.now.tables.sheets.supplementary.now work.old d.now st }
    requires unit_known { UnitKnown (sheet_in d.now.tables.sheets input) unit }
    ensures { let main = d.now.tables.sheets.main.now in let supplementary = d.now.tables.sheets.supplementary.now in
        Joins main supplementary work.old work.new files.old files.new d.now st.table
        (unit_here (sheet_in d.now.tables.sheets input) unit) result }
{
    if lacks_header(d.tables.sheets.of(input), unit) {
        return Ok(st.table);
    }
    let described = FileUnit::describe(d.tables.sheets, input, unit, work, d.spans);
    let base = d.spans + described.directories.count * SPAN_RECORD;
    let joined = st
        .table
        .intern_header_files(d.tables.sheets, described, work, files, base)?;
    Ok(joined.table)
}
