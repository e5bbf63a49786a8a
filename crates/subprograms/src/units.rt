// The subprograms of a unit and their ranges (the Rust's import_unit_details).
ghost use Rattle.std.specs.Prelude.{◌≡◌, ◌&&◌, ◌+◌, ◌≤◌, eqb, length};
ghost use Rattle.tlv.specs.Tags.{entry_tag, entry_whole};
ghost use Rattle.tlv.specs.Constants.{dw_tag_subprogram};
ghost use Rattle.tlv.specs.Bytes.{le_at};
ghost use Rattle.access.specs.Places.{entry_here, unit_here};
ghost use Rattle.references.specs.Tables.{EntryKnown};
ghost use Rattle.imports.specs.Tree.{die_ranges};
ghost use Rattle.imports.specs.Import.{import_by_failure, import_unit_details};
ghost use Rattle.subprograms.specs.Contexts.{ContextIn, main_of, supplementary_of, context_now};
ghost use Rattle.subprograms.specs.Entries.{FieldsKnown, SubprogramIn};
ghost use Rattle.subprograms.specs.Outputs.{SameOutputs};
ghost use Rattle.subprograms.specs.Steps.{below_entry, import_entry, ImportsTo};

use crate::model::{ImportContext, ImportState, Outputs, Subprogram};
use ranges::inlined::list_field;
use references::names::{found_name, resolve_name};
use rnglists::lists::ListField;
use tlv::bytes::Number;
use tlv::constants::DW_TAG_SUBPROGRAM;
use tlv::fields::next_field;
use tlv::refusal::Refusal;
use tlv::tags::{ENTRY_KIND, ENTRY_TAG, ENTRY_WHOLE, UNIT_TAG, UNIT_WHOLE};

// Whether the field of this tag at place p is the entry of a subprogram.
fn is_subprogram(main: &[u8], tag: u8, p: usize) -> bool
    requires { tag ≡ entry_tag → p + entry_whole ≤ length main.now }
    ensures { result ≡ (eqb tag entry_tag && eqb (le_at 2 main.now (p + 13)) dw_tag_subprogram) }
{
    tag == ENTRY_TAG && u16::read(main, p + ENTRY_KIND) == DW_TAG_SUBPROGRAM
}

impl ImportContext<'_> {
    // The ranges of a subprogram: those of its list where it has one, else those of its fields 19.
    fn import_named(
        self,
        subprogram: Subprogram,
        work: &mut [u8],
        outputs: &mut Outputs,
        state: ImportState,
    ) -> Result<ImportState, Refusal>
        requires context_in { ContextIn (main_of self) (supplementary_of self) work.old self state.table }
        requires subprogram_in { SubprogramIn (main_of self) self.context.unit subprogram }
        requires placed { FieldsKnown (main_of self) self.context.unit (subprogram.place + entry_whole) }
        ensures is { let x = context_now work.old self.entry in
            let e = entry_here (main_of self.entry) subprogram.entry.place in
            ImportsTo (import_by_failure x e (below_entry (main_of self.entry) subprogram.entry.place) subprogram.entry.name.now
            (die_ranges x.dwarf e).failure) self.entry work.old outputs.old state work.new outputs.new result }
        ensures same { SameOutputs outputs.old outputs.new }
    {
        let main = self.context.tables.sheets.main;
        match list_field(
            main,
            self.context.with_lists,
            subprogram.place + ENTRY_WHOLE,
        ) {
            Some(field) => {
                let list = ListField::read(main, field.start);
                self.import_list(subprogram, list, work, outputs, state)
            }
            None => self.import_fields(subprogram, work, outputs, state),
        }
    }

    // The subprogram at place p: where it has a name it gives records.
    fn import_entry(
        self,
        p: usize,
        work: &mut [u8],
        outputs: &mut Outputs,
        state: ImportState,
    ) -> Result<ImportState, Refusal>
        requires context_in { ContextIn (main_of self) (supplementary_of self) work.old self state.table }
        requires entry_known { EntryKnown (main_of self) self.context.unit p }
        requires placed { FieldsKnown (main_of self) self.context.unit (p + entry_whole) }
        requires is_subprogram { le_at 2 (main_of self) (p + 13) ≡ dw_tag_subprogram }
        ensures is { ImportsTo (import_entry (context_now work.old self.entry) (entry_here (main_of self.entry) p)
            (below_entry (main_of self.entry) p)) self.entry work.old outputs.old state work.new outputs.new result }
        ensures same { SameOutputs outputs.old outputs.new }
    {
        let entry = self.context.entry(p);
        let found = resolve_name(work, self.context.tables, entry)?;
        let Some(name) = found_name(found) else {
            return Ok(state);
        };
        let subprogram = Subprogram {
            name,
            place: p,
            below: p + ENTRY_WHOLE,
        };
        self.import_named(subprogram, work, outputs, state)
    }

    // The subprograms of the unit.
    pub fn import_unit_details(
        self,
        work: &mut [u8],
        outputs: &mut Outputs,
        mut state: ImportState,
    ) -> Result<ImportState, Refusal>
        requires context_in { ContextIn (main_of self) (supplementary_of self) work.old self state.table }
        ensures is { ImportsTo (import_unit_details (context_now work.old self.entry)
            (unit_here (main_of self.entry) self.entry.context.unit).entries) self.entry work.old outputs.old state work.new outputs.new result }
        ensures same { SameOutputs outputs.old outputs.new }
    {
        let main = self.context.tables.sheets.main;
        let mut at = self.context.unit + UNIT_WHOLE;
        // Stays a loop over fields: next_field says why.
        while let Some(field) = next_field(main, at) {
            if field.tag == UNIT_TAG {
                return Ok(state);
            }
            if is_subprogram(main, field.tag, at) {
                state = self.import_entry(at, work, outputs, state)?;
            }
            at = field.next;
        }
        Ok(state)
    }
}
