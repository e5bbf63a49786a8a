// The import of a unit from a state to a state (the Rust's import_unit), and of units one after another (its import_dwarf).
ghost use Rattle.std.specs.Prelude.{◌-◌, ◌≤◌, length, take, drop};
ghost use Rattle.tlv.specs.Lists.{All};
ghost use Rattle.tlv.specs.Model.{units};
ghost use Rattle.access.specs.Places.{unit_here};
ghost use Rattle.collect.specs.Collects.{UnitIn};
ghost use Rattle.imports.specs.Import.{import_unit, import_units};
ghost use Rattle.subprograms.specs.Outputs.{SameOutputs};
ghost use Rattle.dwarf.specs.Tables.{LinesLaid, MakesContext};
ghost use Rattle.dwarf.specs.Given.{dwarf_lent, TablesFor, UnitLaidFor, EnoughFor, ReadyFor};
ghost use Rattle.dwarf.specs.Units.{GrowsTo};

use crate::lent::Inputs;
use crate::part::program_part;
use crate::tables::Indexes;
use access::units::{UNIT_RECORD, UnitSpan};
use checks::layout::{UnitLayout, place_unit};
use checks::options::Options;
use collect::collect::{CollectedLines, LineUnit, collect_lines};
use dies::details::UnitContext;
use references::tables::Tables;
use std::ops::Range;
use subprograms::model::{ImportContext, ImportState, Outputs};
use subprograms::text::index_text;
use tlv::refusal::Refusal;

// What is the same for every subprogram of a unit whose lines were collected.
fn unit_context<'a>(
    inputs: Inputs<'a>,
    indexes: Indexes,
    parts: UnitLayout,
    place: usize,
    collected: CollectedLines,
    options: Options,
    work: &mut [u8],
) -> ImportContext<'a>
    requires unit_in { UnitIn inputs.sheets.main.now place }
    requires tables_in { TablesFor inputs work.old indexes }
    requires unit_laid { UnitLaidFor inputs work.old indexes place parts }
    requires lines_laid { LinesLaid work.old indexes.layout parts collected.lines collected.indices }
    ensures { MakesContext inputs.entry.sheets.main.now inputs.entry.sheets.supplementary.now inputs.entry.lists.lists.now
        inputs.entry.lists.addresses.now work.old work.new indexes.layout parts place collected.lines collected.indices
        options.inlines options.call_sites result }
{
    let text = index_text(inputs.sheets.main, place, work, parts.text);
    let tables = Tables {
        sheets: inputs.sheets,
        main: indexes.main,
        supplementary: indexes.supplementary,
        keys: parts.keys,
    };
    let context = UnitContext {
        tables,
        lists: inputs.lists,
        unit: place,
        indices: collected.indices,
        ranges: parts.ranges,
        stack: parts.stack,
        sites: parts.sites,
        include_inlines: options.inlines,
        include_call_sites: options.call_sites,
        with_lists: indexes.layout.with_lists,
    };
    ImportContext {
        context,
        lines: collected.lines,
        text,
        spans: parts.spans,
        room: indexes.layout.span_room,
    }
}

// The import of the unit at a place.
// Stays with work, outputs and state apart, as import_each: subprograms' import_candidate says why.
fn import_at(
    inputs: Inputs,
    indexes: Indexes,
    place: usize,
    options: Options,
    work: &mut [u8],
    outputs: &mut Outputs,
    state: ImportState,
) -> Result<ImportState, Refusal>
    requires unit_in { UnitIn inputs.sheets.main.now place }
    requires unit_enough { EnoughFor inputs work.old (unit_here inputs.sheets.main.now place) }
    requires tables_in { TablesFor inputs work.old indexes }
    requires ready { ReadyFor inputs work.old indexes state }
    ensures is { let u = unit_here inputs.entry.sheets.main.now place in
        GrowsTo (import_unit (dwarf_lent inputs.entry) u inputs.entry.program.now options.inlines options.call_sites)
        inputs.entry indexes work.old outputs.old state work.new outputs.new result }
    ensures same { SameOutputs outputs.old outputs.new }
{
    let parts = place_unit(inputs.sheets.main, place, indexes.layout);
    let lines = LineUnit {
        sheets: inputs.sheets,
        program: program_part(inputs.sheets.main, place, inputs.program),
        place,
        free: indexes.layout.lines,
    };
    let collected = collect_lines(
        lines,
        work,
        outputs.files,
        outputs.warnings,
        state.table,
        state.warned,
    )?;
    let context = unit_context(inputs, indexes, parts, place, collected, options, work);
    let mut begun = state;
    begun.table = collected.table;
    begun.warned = collected.warned;
    context.import_unit_details(work, outputs, begun)
}

// The units that are asked for, one after another; the first that is refused ends it.
pub fn import_each(
    inputs: Inputs,
    indexes: Indexes,
    chosen: Range<usize>,
    options: Options,
    work: &mut [u8],
    outputs: &mut Outputs,
    state: ImportState,
) -> Result<ImportState, Refusal>
    requires from_le_to { (chosen.start ≤ chosen.end) × (chosen.end ≤ indexes.main.units.count) }
    requires all { All (EnoughFor inputs work.old)
        (take (chosen.end - chosen.start) (drop chosen.start (units inputs.sheets.main.now))) }
    requires tables_in { TablesFor inputs work.old indexes }
    requires ready { ReadyFor inputs work.old indexes state }
    ensures is { let us = take (chosen.end - chosen.start) (drop chosen.start (units inputs.entry.sheets.main.now)) in
        GrowsTo (import_units (dwarf_lent inputs.entry) us inputs.entry.program.now options.inlines options.call_sites)
        inputs.entry indexes work.old outputs.old state work.new outputs.new result }
    ensures same { SameOutputs outputs.old outputs.new }
{
    let units = indexes.main.units.base;
    let mut reached = state;
    for k in chosen {
        let place = UnitSpan::read(work, units + k * UNIT_RECORD).place;
        reached = import_at(inputs, indexes, place, options, work, outputs, reached)?;
    }
    Ok(reached)
}
