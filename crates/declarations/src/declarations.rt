// Declarations by reference: the entry search calls the absolute-reference search and back, and the number of entries that are left falls.
// The files of a unit that is reached by a section offset join the table.
ghost use Rattle.std.specs.Prelude.{◌-◌};
ghost use Rattle.references.specs.Names.{dwarf_of, place_at, Stands, Aims};
ghost use Rattle.references.specs.Reads.{counted_declaration};
ghost use Rattle.declarations.specs.Declarations.{answered, indices_at, DeclaringIn, DeclaresCounted, Reaching, resolve_reference, resolve_absolute};

use crate::declaring::{Declaration, DeclaringState, Places, Position};
use crate::joins::join_files;
use crate::own_declarations::own_declaration;
use references::keys::{is_visited, push_key};
use references::ways::{OffsetAt, Way, way_of};
use tlv::constants::{DW_AT_ABSTRACT_ORIGIN, DW_AT_SPECIFICATION};
use tlv::refusal::Refusal;

// The declaration of the entry at a place: its own, or the first that its references lead to.
// Stays beside references' name search, of the same shape: one search over both would lend the file table and the warnings to that of a name as well.
// Stays two calls, the second the answer, as references' resolve_name_inner, which says why.
#[cycle(resolve_resolve_absolute_resolve_reference)]
pub fn resolve(
    work: &mut [u8],
    files: &mut [u8],
    warnings: &mut [u8],
    d: &Places,
    here: &Position,
    st: &mut DeclaringState,
) -> Result<Option<Declaration>, Refusal>
    requires declaring_in { DeclaringIn d.now.tables.sheets.main.now d.now.tables.sheets.supplementary.now work.old d.now st.old }
    requires stands { Stands d.now.tables.sheets.main.now d.now.tables.sheets.supplementary.now here.now.at }
    requires reaching { Reaching d.now.tables.sheets.main.now d.now.tables.sheets.supplementary.now work.old st.old here.now.at here.now.reached }
    ensures { let main = d.now.tables.sheets.main.now in let supplementary = d.now.tables.sheets.supplementary.now in
        DeclaresCounted (counted_declaration here.now.at.left (dwarf_of main supplementary)
        (place_at main supplementary here.now.at)
        (indices_at main supplementary work.old d.now st.old here.now.at.input here.now.at.entry.unit here.now.reached))
        main supplementary work.old work.new files.old files.new warnings.old warnings.new d.now st.old
        st.old.trail.reads st.new.trail.reads (answered st.new result) }
{
    if here.at.left == 0 {
        return Ok(None);
    }
    let own = own_declaration(work, warnings, d, here, st)?;
    if own.is_some() {
        return Ok(own);
    }
    let origin = resolve_reference(work, files, warnings, d, here, DW_AT_ABSTRACT_ORIGIN, st)?;
    if origin.is_some() {
        return Ok(origin);
    }
    resolve_reference(work, files, warnings, d, here, DW_AT_SPECIFICATION, st)
}

// The declaration that the attribute of a name of an entry leads to.
#[cycle(resolve_resolve_absolute_resolve_reference)]
fn resolve_reference(
    work: &mut [u8],
    files: &mut [u8],
    warnings: &mut [u8],
    d: &Places,
    here: &Position,
    name: u16,
    st: &mut DeclaringState,
) -> Result<Option<Declaration>, Refusal>
    requires declaring_in { DeclaringIn d.now.tables.sheets.main.now d.now.tables.sheets.supplementary.now work.old d.now st.old }
    requires stands { Stands d.now.tables.sheets.main.now d.now.tables.sheets.supplementary.now here.now.at }
    requires reaching { Reaching d.now.tables.sheets.main.now d.now.tables.sheets.supplementary.now work.old st.old here.now.at here.now.reached }
    ensures { let main = d.now.tables.sheets.main.now in let supplementary = d.now.tables.sheets.supplementary.now in
        DeclaresCounted (resolve_reference (here.now.at.left - 1) main supplementary here.now.at
        (indices_at main supplementary work.old d.now st.old here.now.at.input here.now.at.entry.unit here.now.reached) name)
        main supplementary work.old work.new files.old files.new warnings.old warnings.new d.now st.old
        st.old.trail.reads st.new.trail.reads (answered st.new result) }
{
    match way_of(work, &d.tables, st.trail.count, &here.at, name)? {
        None => Ok(None),
        Some(Way::Entry(next, key)) => {
            push_key(work, &d.tables, st.trail.count, key);
            st.trail = st.trail.with_entry();
            let there = Position { at: next, ..*here };
            resolve(work, files, warnings, d, &there, st)
        }
        Some(Way::Offset(next)) => resolve_absolute(work, files, warnings, d, next, st),
    }
}

// The declaration of the entry at an offset of a section.
#[cycle(resolve_resolve_absolute_resolve_reference)]
pub fn resolve_absolute(
    work: &mut [u8],
    files: &mut [u8],
    warnings: &mut [u8],
    d: &Places,
    at: OffsetAt,
    st: &mut DeclaringState,
) -> Result<Option<Declaration>, Refusal>
    requires declaring_in { DeclaringIn d.now.tables.sheets.main.now d.now.tables.sheets.supplementary.now work.old d.now st.old }
    requires aims { Aims d.now.tables.sheets.main.now d.now.tables.sheets.supplementary.now at }
    ensures { let main = d.now.tables.sheets.main.now in let supplementary = d.now.tables.sheets.supplementary.now in
        DeclaresCounted (resolve_absolute at.left main supplementary at)
        main supplementary work.old work.new files.old files.new warnings.old warnings.new d.now st.old
        st.old.trail.reads st.new.trail.reads (answered st.new result) }
{
    if is_visited(work, &d.tables, st.trail.count, at.key) {
        return Ok(None);
    }
    let s = d.tables.sheets.of(at.input);
    let found = d.tables.index(at.input).target_at(s, work, at.key.offset)?;
    push_key(work, &d.tables, st.trail.count, at.key);
    let Some(entry) = found else {
        st.trail = st.trail.with_target();
        return Ok(None);
    };
    st.trail = st.trail.with_entry();
    st.table = join_files(work, files, d, at.input, entry.unit, *st)?;
    let there = Position {
        at: at.to_entry(entry),
        reached: true,
    };
    resolve(work, files, warnings, d, &there, st)
}
