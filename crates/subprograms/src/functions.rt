// The record of one live range of a subprogram: its rows, its inline nodes, its call sites.
ghost use Rattle.std.specs.Prelude.{◌≡◌};
ghost use Rattle.access.specs.Places.{entry_here};
ghost use Rattle.imports.specs.Tree.{extract_subprogram_details};
ghost use Rattle.imports.specs.Import.{detail_context, import_range};
ghost use Rattle.subprograms.specs.Contexts.{ContextIn, main_of, supplementary_of, context_now};
ghost use Rattle.subprograms.specs.Entries.{SubprogramIn};
ghost use Rattle.subprograms.specs.Outputs.{SameOutputs};
ghost use Rattle.subprograms.specs.Steps.{below_entry, DetailsTo, ImportsTo};

use crate::function_lines::FoundLines;
use crate::model::{ImportContext, ImportState, Outputs, Subprogram};
use buffers::output::{TRAY_FUNCTION, put_function};
use dies::details::Details;
use dies::past::is_past;
use tlv::bytes::Number;
use tlv::model::AddressRange;
use tlv::refusal::Refusal;
use tlv::tags::{ENTRY_DEPTH, FIELD_HEAD};

// Bytes of a record's head besides the name.
const HEAD_LEAST: usize = FIELD_HEAD + TRAY_FUNCTION as usize;

impl ImportContext<'_> {
    // The nodes and call sites of a record whose rows are written, and its count.
    fn import_details(
        self,
        subprogram: Subprogram,
        range: AddressRange,
        lined: FoundLines,
        work: &mut [u8],
        outputs: &mut Outputs,
    ) -> Result<ImportState, Refusal>
        requires context_in { ContextIn (main_of self) (supplementary_of self) work.old self lined.state.table }
        requires subprogram_in { SubprogramIn (main_of self) self.context.unit subprogram }
        ensures is { DetailsTo (extract_subprogram_details (detail_context (context_now work.old self.entry) range)
            (below_entry (main_of self.entry) subprogram.entry.place))
            self.entry subprogram.entry.name.now range lined.count work.old outputs.old lined.state work.new outputs.new result }
        ensures files { outputs.new.files.now ≡ outputs.old.files.now }
        ensures same { SameOutputs outputs.old outputs.new }
    {
        let mut state = lined.state;
        let details = Details {
            context: self.context,
            name: subprogram.name,
            depth: u16::read(
                self.context.tables.sheets.main,
                subprogram.place + ENTRY_DEPTH,
            ),
            range,
        };
        let extracted = details.extract_subprogram_details(
            work,
            outputs.records,
            outputs.warnings,
            subprogram.below,
            state.at,
            state.warned,
        )?;
        state.at = extracted.at;
        state.warned = extracted.warned;
        state.stats.count_function(lined.count, extracted.nodes);
        state.past = state.past || extracted.past;
        Ok(state)
    }

    // The record of a live range of a subprogram.
    pub fn import_range(
        self,
        subprogram: Subprogram,
        range: AddressRange,
        work: &mut [u8],
        outputs: &mut Outputs,
        mut state: ImportState,
    ) -> Result<ImportState, Refusal>
        requires context_in { ContextIn (main_of self) (supplementary_of self) work.old self state.table }
        requires subprogram_in { SubprogramIn (main_of self) self.context.unit subprogram }
        ensures is { ImportsTo (import_range (context_now work.old self.entry) (entry_here (main_of self.entry) subprogram.entry.place)
            (below_entry (main_of self.entry) subprogram.entry.place) subprogram.entry.name.now range)
            self.entry work.old outputs.old state work.new outputs.new result }
        ensures same { SameOutputs outputs.old outputs.new }
    {
        let past = is_past(state.at, HEAD_LEAST + subprogram.name.len());
        state.past = state.past || past;
        state.at = put_function(outputs.records, state.at, range, subprogram.name);
        let lined = self.function_lines(subprogram.place, range, work, outputs, state)?;
        self.import_details(subprogram, range, lined, work, outputs)
    }
}
