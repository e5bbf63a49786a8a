// The ranges of a subprogram, one after another.
ghost use Rattle.std.specs.Prelude.{◌≡◌, ℕ, ◌+◌};
ghost use Rattle.tlv.specs.Tags.{entry_whole};
ghost use Rattle.tlv.specs.Checked.{Placed};
ghost use Rattle.access.specs.Places.{entry_here};
ghost use Rattle.imports.specs.Import.{import_ranges};
ghost use Rattle.dies.specs.Details.{EntriesKnown};
ghost use Rattle.subprograms.specs.Contexts.{ContextIn, main_of, supplementary_of, context_now};
ghost use Rattle.subprograms.specs.Entries.{BeginsAt, FieldsKnown, SubprogramIn};
ghost use Rattle.subprograms.specs.Outputs.{SameOutputs};
ghost use Rattle.subprograms.specs.Steps.{Rejects, below_entry, import_one, import_failing, ImportsTo};

use crate::model::{ImportContext, ImportState, Outputs, Subprogram};
use crate::text::{is_live_range, is_tombstone};
use access::access::next_own;
use buffers::output::{put_malformed_ranges, put_warning};
use buffers::warning::WarningKind;
use ranges::ranges::RangeTable;
use tlv::bytes::Number;
use tlv::fields::next_field;
use tlv::model::AddressRange;
use tlv::refusal::Refusal;
use tlv::shapes::{FAILURE_REASON, RANGE_TOMBSTONE};
use tlv::tags::{ENTRY_TAG, ENTRY_WHOLE, FAILURE_TAG, RANGE_TAG, UNIT_TAG};

// The flag of a dead range, which stands behind its addresses.
const DEAD: u8 = 1;

impl ImportState {
    // The state after a rejected range.
    pub fn rejected(mut self) -> ImportState
        ensures { Rejects self self.warned result }
    {
        self.stats.count_rejected();
        self
    }
}

// The place of the next entry or unit from place p on, or the end.
pub fn next_entry(s: &[u8], p: usize) -> usize
    requires { Placed s.now p }
    ensures { (unit : ℕ) → EntriesKnown s.now unit p → BeginsAt s.now unit p result }
{
    let mut at = p;
    // Stays a loop over fields: next_field says why.
    while let Some(field) = next_field(s, at) {
        if field.tag == UNIT_TAG || field.tag == ENTRY_TAG {
            return at;
        }
        at = field.next;
    }
    at
}

impl ImportContext<'_> {
    // One range of a subprogram, which is dead or not.
    // Stays, as its neighbours, with `work`, `outputs` and `state` apart: for each function below that is lent some of them a struct would be taken apart.
    pub fn import_candidate(
        self,
        subprogram: Subprogram,
        range: AddressRange,
        dead: bool,
        work: &mut [u8],
        outputs: &mut Outputs,
        mut state: ImportState,
    ) -> Result<ImportState, Refusal>
        requires context_in { ContextIn (main_of self) (supplementary_of self) work.old self state.table }
        requires subprogram_in { SubprogramIn (main_of self) self.context.unit subprogram }
        ensures is { ImportsTo (import_one (context_now work.old self.entry) (entry_here (main_of self.entry) subprogram.entry.place)
            (below_entry (main_of self.entry) subprogram.entry.place) subprogram.entry.name.now (record { range = range; tombstone = dead }))
            self.entry work.old outputs.old state work.new outputs.new result }
        ensures same { SameOutputs outputs.old outputs.new }
    {
        let text = RangeTable {
            work,
            stored: self.text,
        };
        if is_tombstone(text, range, dead) {
            return Ok(state.rejected());
        }
        if is_live_range(text, range) {
            return self.import_range(subprogram, range, work, outputs, state);
        }
        state.warned = put_warning(
            outputs.warnings,
            state.warned,
            WarningKind::RejectedRange.number(),
            range.start,
            range.end,
        );
        Ok(state.rejected())
    }

    // The ranges of a subprogram. Where the entries below it begin is looked for at its first range, and is known at the others.
    fn import_ranges(
        self,
        subprogram: Subprogram,
        work: &mut [u8],
        outputs: &mut Outputs,
        mut state: ImportState,
    ) -> Result<ImportState, Refusal>
        requires context_in { ContextIn (main_of self) (supplementary_of self) work.old self state.table }
        requires subprogram_in { SubprogramIn (main_of self) self.context.unit subprogram }
        requires placed { FieldsKnown (main_of self) self.context.unit (subprogram.place + entry_whole) }
        ensures is { let e = entry_here (main_of self.entry) subprogram.entry.place in
            ImportsTo (import_ranges (context_now work.old self.entry) e (below_entry (main_of self.entry) subprogram.entry.place)
            subprogram.entry.name.now e.ranges) self.entry work.old outputs.old state work.new outputs.new result }
        ensures same { SameOutputs outputs.old outputs.new }
    {
        let main = self.context.tables.sheets.main;
        let mut at = subprogram.place + ENTRY_WHOLE;
        let mut below = subprogram.below;
        // Stays a loop over fields: next_field says why.
        while let Some(field) = next_own(main, at, RANGE_TAG) {
            let range = AddressRange::read(main, field.start);
            let dead = u8::read(main, field.start + RANGE_TOMBSTONE) == DEAD;
            below = next_entry(main, below);
            let mut known = subprogram;
            known.below = below;
            state = self.import_candidate(known, range, dead, work, outputs, state)?;
            at = field.next;
        }
        Ok(state)
    }

    // The ranges of a subprogram without a list, and their failure: before any range it leaves none, after them it warns when they are done.
    pub fn import_fields(
        self,
        subprogram: Subprogram,
        work: &mut [u8],
        outputs: &mut Outputs,
        mut state: ImportState,
    ) -> Result<ImportState, Refusal>
        requires context_in { ContextIn (main_of self) (supplementary_of self) work.old self state.table }
        requires subprogram_in { SubprogramIn (main_of self) self.context.unit subprogram }
        requires placed { FieldsKnown (main_of self) self.context.unit (subprogram.place + entry_whole) }
        ensures is { let e = entry_here (main_of self.entry) subprogram.entry.place in
            ImportsTo (import_failing (context_now work.old self.entry) e (below_entry (main_of self.entry) subprogram.entry.place)
            subprogram.entry.name.now e.ranges e.failure) self.entry work.old outputs.old state work.new outputs.new result }
        ensures same { SameOutputs outputs.old outputs.new }
    {
        let main = self.context.tables.sheets.main;
        let Some(field) = next_own(main, subprogram.place + ENTRY_WHOLE, FAILURE_TAG) else {
            return self.import_ranges(subprogram, work, outputs, state);
        };
        let failure = field.payload(main);
        let reason = &failure[FAILURE_REASON..];
        if u8::read(main, field.start) == 0 {
            state.warned = put_malformed_ranges(outputs.warnings, state.warned, false, reason);
            return Ok(state.rejected());
        }
        state = self.import_ranges(subprogram, work, outputs, state)?;
        state.warned = put_malformed_ranges(outputs.warnings, state.warned, true, reason);
        Ok(state.rejected())
    }
}
