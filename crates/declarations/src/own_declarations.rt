// The declaration that an entry has of its own.
ghost use Rattle.std.specs.Prelude.{◌≡◌};
ghost use Rattle.tlv.specs.Lists.{is_none};
ghost use Rattle.tlv.specs.Checked.{Placed, Accepted};
ghost use Rattle.access.specs.Places.{unit_here, UnitOf};
ghost use Rattle.files.specs.Pieces.{UnitPlaced};
ghost use Rattle.files.specs.Sheets.{sheet_in};
ghost use Rattle.references.specs.Search.{own_declaration};
ghost use Rattle.references.specs.Tables.{EntryKnown};
ghost use Rattle.references.specs.Names.{place_at, Stands};
ghost use Rattle.declarations.specs.Declarations.{answered, indices_at, DeclaringIn};
ghost use Rattle.declarations.specs.DeclaredSteps.{OwnAt, Numbered, Warns, Owns, UnitKnown};

use crate::declaring::{Declaration, DeclaringState, Places, Position};
use access::access::next_own;
use access::index::EntryPlace;
use buffers::warning::WarningKind;
use files::index::{FileNumber, get_index};
use files::spans::FileUnit;
use references::attributes::{file_index_attribute, unsigned_attribute};
use references::warnings::warn_about;
use tlv::constants::{DW_AT_DECL_FILE, DW_AT_DECL_LINE};
use tlv::model::FileIndex;
use tlv::refusal::Refusal;
use tlv::tags::{HEADER_TAG, UNIT_WHOLE};

// The file number and the line that an entry has.
// Stays beside Declaration: both numbers are of the sheet's types here, since neither was looked up or tested yet.
#[derive(Clone, Copy, Debug)]
pub struct OwnLine {
    pub file: FileNumber,
    pub line: u64,
}

// The file number and the line of the declaration of an entry, where it has both.
fn declared_at(s: &[u8], entry: EntryPlace) -> Option<OwnLine>
    requires placed { Placed s.now 0 }
    requires entry_known { EntryKnown s.now entry.unit entry.place }
    ensures { OwnAt s.now entry.place result }
{
    let file = file_index_attribute(s, entry, DW_AT_DECL_FILE)?;
    let line = unsigned_attribute(s, entry, DW_AT_DECL_LINE)?;
    Some(OwnLine {
        file: FileNumber(file),
        line,
    })
}

// Whether the unit at a place has no line header.
// Stays beside checks' has_encoding: each is one look for a field of the unit, by a walk of its own.
pub fn lacks_header(s: &[u8], unit: usize) -> bool
    requires { UnitPlaced s.now unit }
    ensures { result ≡ is_none (unit_here s.now unit).header }
{
    next_own(s, unit + UNIT_WHOLE, HEADER_TAG).is_none()
}

// The table's number for one of the unit's at a place: by the map of the unit that is imported; of a unit that was reached, by the table,
// and none where it has no header.
fn number_of(
    work: &mut [u8],
    d: &Places,
    here: &Position,
    file: FileNumber,
    st: DeclaringState,
) -> Option<FileIndex>
    requires declaring_in { DeclaringIn d.now.tables.sheets.main.now d.now.tables.sheets.supplementary.now work.old d.now st }
    requires unit_known { UnitKnown (sheet_in d.now.tables.sheets here.now.at.input) here.now.at.entry.unit }
    ensures { let main = d.now.tables.sheets.main.now in let supplementary = d.now.tables.sheets.supplementary.now in
        Numbered main supplementary work.old work.new d.now st
        (indices_at main supplementary work.old d.now st here.now.at.input here.now.at.entry.unit here.now.reached) file result }
{
    if !here.reached {
        return get_index(work, d.indices, file);
    }
    let input = here.at.input;
    let unit = here.at.entry.unit;
    if lacks_header(d.tables.sheets.of(input), unit) {
        return None;
    }
    let described = FileUnit::describe(d.tables.sheets, input, unit, work, d.spans);
    st.table
        .look_up_file(d.tables.sheets, described, file, work)
}

// Warns of a bad declaration, with the entry's offset in its section and a number: it is none.
fn warn_declaration(
    s: &[u8],
    warnings: &mut [u8],
    entry: EntryPlace,
    kind: WarningKind,
    number: u64,
    st: &mut DeclaringState,
) -> Result<Option<Declaration>, Refusal>
    requires accepted { Accepted s.now }
    requires entry_known { EntryKnown s.now entry.unit entry.place }
    ensures warns { Warns s.now entry.unit entry.place kind number warnings.old warnings.new st.old (answered st.new result) }
    ensures same_trail { st.new.trail ≡ st.old.trail }
{
    st.warned = warn_about(s, warnings, entry, kind.number(), number, st.warned)?;
    Ok(None)
}

// The declaration that an entry has itself.
pub fn own_declaration(
    work: &mut [u8],
    warnings: &mut [u8],
    d: &Places,
    here: &Position,
    st: &mut DeclaringState,
) -> Result<Option<Declaration>, Refusal>
    requires declaring_in { DeclaringIn d.now.tables.sheets.main.now d.now.tables.sheets.supplementary.now work.old d.now st.old }
    requires stands { Stands d.now.tables.sheets.main.now d.now.tables.sheets.supplementary.now here.now.at }
    ensures owns { let main = d.now.tables.sheets.main.now in let supplementary = d.now.tables.sheets.supplementary.now in
        let p = place_at main supplementary here.now.at in
        Owns (own_declaration p.unit p.entry (indices_at main supplementary work.old d.now st.old here.now.at.input here.now.at.entry.unit here.now.reached))
        main supplementary work.old work.new warnings.old warnings.new d.now st.old (answered st.new result) }
    ensures same_trail { st.new.trail ≡ st.old.trail }
{
    let s = d.tables.sheets.of(here.at.input);
    let Some(own) = declared_at(s, here.at.entry) else {
        return Ok(None);
    };
    let Some(file) = number_of(work, d, here, own.file, *st) else {
        return warn_declaration(
            s,
            warnings,
            here.at.entry,
            WarningKind::InvalidDeclarationFile,
            own.file.0,
            st,
        );
    };
    let Ok(line) = u32::try_from(own.line) else {
        return warn_declaration(
            s,
            warnings,
            here.at.entry,
            WarningKind::InvalidDeclarationLine,
            own.line,
            st,
        );
    };
    Ok(Some(Declaration { file, line }))
}
