// An import up to the refusals of the output buffers' lengths: what is written to the output buffers is cut off at their ends.
ghost use Rattle.std.specs.Prelude.{◌≡◌, length, replicate};
ghost use Rattle.tlv.specs.Model.{units};
ghost use Rattle.tlv.specs.Checked.{Accepted};
ghost use Rattle.imports.specs.Answer.{work_of_units};
ghost use Rattle.imports.specs.Import.{import_units};
ghost use Rattle.subprograms.specs.Outputs.{SameOutputs};
ghost use Rattle.checks.specs.Checks.{BothAccepted, WorkEnough, chosen_units};
ghost use Rattle.checks.specs.Layout.{Sized};
ghost use Rattle.dwarf.specs.Runs.{import_all, Chooses, import_accepted, start_state, LengthsOf, fit_of};
ghost use Rattle.dwarf.specs.Given.{dwarf_lent, NotOversizeFor, SizesOf};
ghost use Rattle.dwarf.specs.Lent.{asked_of, WritesTo};

use crate::lent::Inputs;
use crate::model::Lengths;
use crate::tables::index_inputs;
use crate::unit::import_each;
use checks::checks::{check_both, is_missing, is_oversize, is_short, work_of_units};
use checks::layout::{Counts, counts_of, lay_out};
use checks::options::{Options, Sizes};
use files::store::StoredFiles;
use std::ops::Range;
use subprograms::model::{ConversionStats, ImportState, Outputs};
use tlv::refusal::Refusal;

// The full lengths of what an import writes, each at most the largest place, the statistics, and whether the records pass that place.
// Stays beside Imported, which From makes of it: with Imported in it each clause on a length would be led through one more field.
#[derive(Clone, Copy, Debug)]
pub struct Ran {
    pub lengths: Lengths,
    pub stats: ConversionStats,
    pub past: bool,
}

// Up to a state, so much was written.
impl From<ImportState> for Ran {
    ghost from_gives = { λ state r. LengthsOf state r };

    fn from(state: ImportState) -> Ran
        ensures { LengthsOf state result }
    {
        Ran {
            lengths: Lengths {
                records: state.at,
                files: state.table.written,
                warnings: state.warned,
            },
            stats: state.stats,
            past: state.past,
        }
    }
}

// Which of so many units are asked for: a package without debug data has none.
fn chosen_units(options: Options, count: usize) -> Range<usize>
    ensures { Chooses options count result }
{
    let Some(ordinal) = options.ordinal else {
        return 0..count;
    };
    if (count as u64) <= ordinal {
        return 0..0;
    }
    let from = ordinal as usize;
    from..from + 1
}

// The import of the units that are asked for, with work enough: the file table is begun and the tables of both inputs are made once for all.
fn import_worked(
    inputs: Inputs,
    options: Options,
    counts: Counts,
    sizes: Sizes,
    work: &mut [u8],
    outputs: &mut Outputs,
) -> Result<Ran, Refusal>
    requires accepted { (Accepted inputs.sheets.main.now) × (Accepted inputs.sheets.supplementary.now) }
    requires not_oversize { NotOversizeFor inputs }
    requires sized { Sized inputs.sheets.main.now counts }
    requires sizes_are { SizesOf inputs sizes }
    requires work_enough { WorkEnough inputs.sheets.main.now inputs.sheets.supplementary.now (length work.old)
        (work_of_units (length inputs.program.now) (length inputs.lists.lists.now) (chosen_units options (units inputs.sheets.main.now))) }
    ensures is { let us = chosen_units options (units inputs.entry.sheets.main.now) in
        WritesTo (import_units (dwarf_lent inputs.entry) us inputs.entry.program.now options.inlines options.call_sites
        (start_state options.first_file)) outputs.old outputs.new result }
    ensures same { SameOutputs outputs.old outputs.new }
{
    let layout = lay_out(counts, counts_of(inputs.sheets.supplementary), sizes);
    let table = StoredFiles::new(
        inputs.sheets,
        work,
        layout.files,
        layout.room,
        options.first_file,
        0,
    );
    let indexes = index_inputs(inputs, layout, work);
    let chosen = chosen_units(options, indexes.main.units.count);
    let begun = ImportState {
        table,
        at: 0,
        warned: 0,
        stats: ConversionStats::default(),
        past: false,
    };
    let state = import_each(inputs, indexes, chosen, options, work, outputs, begun)?;
    Ok(Ran::from(state))
}

// Refusals 4 and 5, and the import of two accepted inputs with so many fields.
fn import_accepted(
    inputs: Inputs,
    options: Options,
    number: usize,
    work: &mut [u8],
    outputs: &mut Outputs,
) -> Result<Ran, Refusal>
    requires both_accepted { BothAccepted inputs.sheets.main.now inputs.sheets.supplementary.now (length inputs.program.now) number }
    requires not_oversize { NotOversizeFor inputs }
    ensures is { WritesTo (import_accepted options (asked_of inputs.entry options work.old outputs.old) number) outputs.old outputs.new result }
    ensures same { SameOutputs outputs.old outputs.new }
{
    if is_missing(inputs.sheets.main, options) {
        return Err(Refusal::NoUnit);
    }
    let counts = counts_of(inputs.sheets.main);
    let sizes = Sizes {
        program: inputs.program.len(),
        lists: inputs.lists.lists.len(),
    };
    let most = work_of_units(inputs.sheets.main, options, counts, sizes);
    if is_short(work, number, most) {
        return Err(Refusal::ShortWork);
    }
    import_worked(inputs, options, counts, sizes, work, outputs)
}

// The import up to those refusals.
fn run_import(
    inputs: Inputs,
    options: Options,
    work: &mut [u8],
    outputs: &mut Outputs,
) -> Result<Ran, Refusal>
    ensures is { WritesTo (import_all options.ordinal (asked_of inputs.entry options work.old outputs.old)) outputs.old outputs.new result }
    ensures same { SameOutputs outputs.old outputs.new }
{
    if is_oversize(inputs.sheets, inputs.program, inputs.lists) {
        return Err(Refusal::Oversize);
    }
    let number = check_both(inputs.sheets, inputs.program.len())?;
    import_accepted(inputs, options, number, work, outputs)
}

// The same, after which work holds only 0.
// Stays beside symbols' join_symbols_with: alike is that work is filled with 0 behind a run.
pub fn run_cleared(
    inputs: Inputs,
    options: Options,
    work: &mut [u8],
    outputs: &mut Outputs,
) -> Result<Ran, Refusal>
    ensures is { WritesTo (import_all options.ordinal (asked_of inputs.entry options work.old outputs.old)) outputs.old outputs.new result }
    ensures same { SameOutputs outputs.old outputs.new }
    ensures cleared { work.new ≡ replicate (length work.old) 0 }
{
    let ran = run_import(inputs, options, work, outputs);
    work.fill(0);
    ran
}

// Refusals 16 to 18, where there is no other.
#[tactic(auto, unfolding(crate::specs::Runs::fit_of))]
pub fn fitting(ran: Result<Ran, Refusal>, lent: Lengths) -> Result<Ran, Refusal>
    ensures { result ≡ fit_of ran lent }
{
    let ran = ran?;
    match ran.lengths.short_in(lent) {
        Some(refusal) => Err(refusal),
        None => Ok(ran),
    }
}
