// The line of a declaration, and how many entries its search reads.
ghost use Rattle.std.specs.Prelude.{◌≡◌};
ghost use Rattle.files.specs.Indices.{indices_in};
ghost use Rattle.references.specs.Search.{chain_limit, resolve_declaration};
ghost use Rattle.references.specs.Tables.{EntryKnown};
ghost use Rattle.references.specs.Names.{dwarf_of, place_at, start_at};
ghost use Rattle.declarations.specs.Declarations.{DeclaringIn, Declares, LineRead};

use crate::declarations::resolve;
use crate::declaring::{Declared, DeclaringState, Places, Position};
use access::index::EntryPlace;
use references::names::start_at;
use references::trails::{Counted, Trail};
use tlv::refusal::Refusal;

// The declaration of an entry of the unit that is imported, from no followed targets on, and how many entries were read for it.
// Stays apart from references' resolve_name_counted, which says why.
// Stays with its slices apart: own_declaration and join_files are lent two of the three, and of a struct they would have to promise that the third stays.
pub fn resolve_declaration_line_counted(
    work: &mut [u8],
    files: &mut [u8],
    warnings: &mut [u8],
    d: Places,
    entry: EntryPlace,
    st: DeclaringState,
) -> Counted<Result<Declared, Refusal>>
    requires declaring_in { DeclaringIn d.tables.sheets.main.now d.tables.sheets.supplementary.now work.old d st }
    requires none_followed { st.trail.count ≡ 0 }
    requires entry_known { EntryKnown d.tables.sheets.main.now entry.unit entry.place }
    ensures declares { let main = d.entry.tables.sheets.main.now in let supplementary = d.entry.tables.sheets.supplementary.now in
        Declares (resolve_declaration chain_limit (dwarf_of main supplementary) (place_at main supplementary (start_at entry))
        (indices_in work.old d.entry.indices)) main supplementary work.old work.new files.old files.new warnings.old
        warnings.new d.entry st result.answer }
    ensures line_read { let main = d.entry.tables.sheets.main.now in let supplementary = d.entry.tables.sheets.supplementary.now in
        LineRead main supplementary work.old d.entry st entry.unit entry.place result.reads }
{
    let mut state = DeclaringState {
        trail: Trail::start(),
        ..st
    };
    let here = Position {
        at: start_at(entry),
        reached: false,
    };
    let found = resolve(work, files, warnings, &d, &here, &mut state);
    Counted {
        answer: state.answered(found),
        reads: state.trail.reads,
    }
}

// The declaration of such an entry.
pub fn resolve_declaration_line(
    work: &mut [u8],
    files: &mut [u8],
    warnings: &mut [u8],
    d: Places,
    entry: EntryPlace,
    st: DeclaringState,
) -> Result<Declared, Refusal>
    requires declaring_in { DeclaringIn d.tables.sheets.main.now d.tables.sheets.supplementary.now work.old d st }
    requires none_followed { st.trail.count ≡ 0 }
    requires entry_known { EntryKnown d.tables.sheets.main.now entry.unit entry.place }
    ensures { let main = d.entry.tables.sheets.main.now in let supplementary = d.entry.tables.sheets.supplementary.now in
        Declares (resolve_declaration chain_limit (dwarf_of main supplementary) (place_at main supplementary (start_at entry))
        (indices_in work.old d.entry.indices)) main supplementary work.old work.new files.old files.new warnings.old
        warnings.new d.entry st result }
{
    resolve_declaration_line_counted(work, files, warnings, d, entry, st).answer
}
