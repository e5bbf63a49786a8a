// Range lists of subprograms (document 02, E9).
ghost use Rattle.std.specs.Prelude.{◌≡◌, true};
ghost use Rattle.tlv.specs.Tags.{tray_warning_tag};
ghost use Rattle.tlv.specs.Fields.{encode};
ghost use Rattle.tlv.specs.Checked.{Placed};
ghost use Rattle.tlv.specs.Refusals.{number_of};
ghost use Rattle.buffers.specs.Buffer.{Put};
ghost use Rattle.buffers.specs.Output.{warning_payload, malformed_ranges};
ghost use Rattle.access.specs.Places.{entry_here};
ghost use Rattle.rnglists.specs.RangeLists.{decimal};
ghost use Rattle.subprograms.specs.Contexts.{ContextIn, main_of, supplementary_of, context_now};
ghost use Rattle.subprograms.specs.Entries.{SubprogramIn};
ghost use Rattle.subprograms.specs.Outputs.{SameOutputs};
ghost use Rattle.subprograms.specs.Steps.{RejectsList, below_entry, import_listed, ranges_listed, ImportsTo};

use crate::candidates::next_entry;
use crate::model::{ImportContext, ImportState, Outputs, Subprogram};
use buffers::output::put_malformed_ranges;
use rnglists::lists::ListField;
use tlv::refusal::Refusal;

// The warning of a list's fault, whose reason is its number in decimal.
// Stays digits by hand: std says nothing of the bytes that `write!` leaves in a slice. itoa does, but its text is `decimal n` only below 100, which a clause
// would have to say, and no crate from outside but std is used here.
fn put_fault(warnings: &mut [u8], at: usize, n: u8) -> usize
    ensures { Put at (encode tray_warning_tag (warning_payload (malformed_ranges true (decimal n)))) warnings.old
        warnings.new result }
{
    if n < 10 {
        let digit = [b'0' + n];
        return put_malformed_ranges(warnings, at, true, &digit);
    }
    let digits = [b'0' + n / 10, b'0' + n % 10];
    put_malformed_ranges(warnings, at, true, &digits)
}

// The state after the fault of a list, which warns and is one rejected range.
fn reject_list(warnings: &mut [u8], mut state: ImportState, fault: Refusal) -> ImportState
    ensures { RejectsList state (number_of fault) warnings.old warnings.new result }
{
    state.warned = put_fault(warnings, state.warned, fault.number());
    state.rejected()
}

impl ImportContext<'_> {
    // The ranges of the list of a subprogram, and the list's fault, which warns behind them.
    pub fn import_list(
        self,
        subprogram: Subprogram,
        list: ListField,
        work: &mut [u8],
        outputs: &mut Outputs,
        mut state: ImportState,
    ) -> Result<ImportState, Refusal>
        requires context_in { ContextIn (main_of self) (supplementary_of self) work.old self state.table }
        requires subprogram_in { SubprogramIn (main_of self) self.context.unit subprogram }
        ensures is { ImportsTo (import_listed (context_now work.old self.entry) (entry_here (main_of self.entry) subprogram.entry.place)
            (below_entry (main_of self.entry) subprogram.entry.place) subprogram.entry.name.now
            (ranges_listed self.entry.context.lists.lists.now self.entry.context.lists.addresses.now list))
            self.entry work.old outputs.old state work.new outputs.new result }
        ensures same { SameOutputs outputs.old outputs.new }
    {
        let main = self.context.tables.sheets.main;
        let mut known = subprogram;
        known.below = next_entry(main, known.below);
        let mut at = list.offset as usize;
        let mut base = list.base;
        // Stays a loop: the list's own bytes move the place and the base, and a fault ends it too.
        loop {
            match self
                .context
                .lists
                .next_range(list.addresses, list.size, at, base)
            {
                Ok(None) => return Ok(state),
                Err(fault) => return Ok(reject_list(outputs.warnings, state, fault)),
                Ok(Some(given)) => {
                    state = self.import_candidate(
                        known,
                        given.range,
                        given.dead,
                        work,
                        outputs,
                        state,
                    )?;
                    at = given.next;
                    base = given.base;
                }
            }
        }
    }
}
