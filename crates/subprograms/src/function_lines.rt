// The rows of a record: a function's own, or its declaration.
ghost use Rattle.std.specs.Prelude.{◌≡◌, cond, ◌+◌, ◌-◌, ◌*◌, ◌^◌, ◌≤◌, eqb, length};
ghost use Rattle.std.proofs.Math.Option.{none, some};
ghost use Rattle.tlv.specs.Checked.{Accepted};
ghost use Rattle.tlv.specs.Refusals.{status_of};
ghost use Rattle.buffers.specs.Buffer.{Put};
ghost use Rattle.access.specs.Places.{entry_here, unit_here};
ghost use Rattle.rows.specs.Sizes.{entry_size};
ghost use Rattle.rows.specs.Stored.{sequence_of, entries_of};
ghost use Rattle.collect.specs.Collects.{UnitIn};
ghost use Rattle.references.specs.Tables.{EntryKnown};
ghost use Rattle.imports.specs.Import.{statement_sequence_offset};
ghost use Rattle.dies.specs.Answers.{value_or};
ghost use Rattle.dies.specs.Past.{is_past};
ghost use Rattle.subprograms.specs.Contexts.{ContextIn, main_of, supplementary_of, context_now};
ghost use Rattle.subprograms.specs.Outputs.{SameOutputs};
ghost use Rattle.subprograms.specs.Steps.{lines_bytes, sequence_in, SequenceWarned, function_lines, declared_line, LinesTo};

use crate::model::{ImportContext, ImportState, Outputs};
use access::access::Value;
use access::index::EntryPlace;
use buffers::output::{TRAY_ROW, put_line};
use buffers::table::Stored;
use buffers::warning::WarningKind;
use declarations::declaration_lines::resolve_declaration_line;
use declarations::declaring::{DeclaringState, Places};
use references::attributes::attribute_at;
use references::trails::Trail;
use references::warnings::warn_about;
use rnglists::sizes::AddressSize;
use rows::line::{ENTRY_SIZE, entry_at};
use tlv::bytes::Number;
use tlv::constants::DW_AT_LLVM_STMT_SEQUENCE;
use tlv::model::{AddressRange, LineEntry};
use tlv::refusal::Refusal;
use tlv::shapes::UNIT_WORD;
use tlv::tags::FIELD_HEAD;

// The state after a function's rows, and how many these are.
#[derive(Clone, Copy, Debug)]
pub struct FoundLines {
    pub state: ImportState,
    pub count: usize,
}

// The largest number of a unit's word, which asks for no sequence.
fn no_sequence(main: &[u8], unit: usize) -> u64
    requires accepted { Accepted main.now }
    requires unit_in { UnitIn main.now unit }
    ensures { result ≡ 2 ^ (8 * (unit_here main.now unit).word_size) - 1 }
{
    AddressSize::of(u8::read(main, unit + FIELD_HEAD + UNIT_WORD)).largest()
}

// The sequence that a number requests; the number `limit` requests none.
fn sequence_unless(limit: u64, n: u64) -> Option<u64>
    ensures { sequence_of result ≡ cond (eqb n limit) none (some n) }
{
    if n == limit { None } else { Some(n) }
}

// The sequence that a value asks for, where there is one.
fn sequence_in(limit: u64, v: Option<Value>) -> Option<u64>
    ensures { sequence_of result ≡ sequence_in limit v }
{
    match v {
        Some(Value::Unsigned(n) | Value::SectionOffset(n) | Value::LineOffset(n)) => {
            sequence_unless(limit, n)
        }
        _ => None,
    }
}

// The statement sequence that an entry asks for.
pub fn statement_sequence_offset(main: &[u8], entry: EntryPlace) -> Option<u64>
    requires accepted { Accepted main.now }
    requires unit_in { UnitIn main.now entry.unit }
    requires entry_known { EntryKnown main.now entry.unit entry.place }
    ensures { sequence_of result ≡ statement_sequence_offset (unit_here main.now entry.unit) (entry_here main.now entry.place) }
{
    let limit = no_sequence(main, entry.unit);
    let value = attribute_at(main, entry, DW_AT_LLVM_STMT_SEQUENCE);
    sequence_in(limit, value)
}

// An invalid statement sequence warns.
// Stays with the flag beside the sequence, as the definition has them: an Option of the sequence to warn of would be made of the two at the one call.
fn warn_sequence(
    main: &[u8],
    warnings: &mut [u8],
    entry: EntryPlace,
    requested: Option<u64>,
    invalid: bool,
    at: usize,
) -> Result<usize, Refusal>
    requires accepted { Accepted main.now }
    requires entry_known { EntryKnown main.now entry.unit entry.place }
    ensures { SequenceWarned main.now entry.unit entry.place (sequence_of requested) invalid at warnings.old warnings.new
        (status_of result) (value_or at result) }
{
    match requested {
        Some(number) if invalid => {
            let kind = WarningKind::InvalidStatementSequence.number();
            warn_about(main, warnings, entry, kind, number, at)
        }
        _ => Ok(at),
    }
}

// The rows, as fields 42.
// Stays apart from `ranges::put_ranges`: one for both would take the reader, the writer and a law of each, more than this loop.
fn put_lines(records: &mut [u8], at: usize, work: &[u8], rows: Stored<LineEntry>) -> usize
    requires rows_within { rows.base + rows.count * entry_size ≤ length work.now }
    ensures { Put at (lines_bytes (entries_of work.now rows.base rows.count)) records.old records.new result }
{
    let mut place = at;
    for i in 0..rows.count {
        let line = entry_at(work, rows.base + i * ENTRY_SIZE);
        place = put_line(records, place, line);
    }
    place
}

// Bytes of a row in the records.
const ROW_WHOLE: usize = FIELD_HEAD + TRAY_ROW as usize;

// Whether so many rows from a place in the records on pass the largest place.
fn rows_past(at: usize, lines: usize) -> bool
    ensures { result ≡ is_past at (21 * lines) }
{
    (usize::MAX - at) / ROW_WHOLE < lines
}

impl ImportContext<'_> {
    // The declaration of the entry at place p as the only row, at the address `start`; none where it has no declaration.
    fn declared_line(
        self,
        p: usize,
        start: u64,
        work: &mut [u8],
        outputs: &mut Outputs,
        mut state: ImportState,
    ) -> Result<FoundLines, Refusal>
        requires context_in { ContextIn (main_of self) (supplementary_of self) work.old self state.table }
        requires entry_known { EntryKnown (main_of self) self.context.unit p }
        ensures is { LinesTo (declared_line (context_now work.old self.entry) (entry_here (main_of self.entry) p) start)
            self.entry work.old outputs.old state work.new outputs.new result }
        ensures same { SameOutputs outputs.old outputs.new }
    {
        let from = DeclaringState {
            trail: Trail::start(),
            table: state.table,
            warned: state.warned,
        };
        // Stays made here: held in the context, the tables and the map of file numbers would stand there twice.
        let places = Places {
            tables: self.context.tables,
            indices: self.context.indices,
            spans: self.spans,
            room: self.room,
        };
        let entry = self.context.entry(p);
        let declared = resolve_declaration_line(
            work,
            outputs.files,
            outputs.warnings,
            places,
            entry,
            from,
        )?;
        state.table = declared.state.table;
        state.warned = declared.state.warned;
        let Some(line) = declared.found else {
            return Ok(FoundLines { state, count: 0 });
        };
        let row = LineEntry {
            address: start,
            file: line.file,
            line: line.line,
            column: 0,
        };
        let past = rows_past(state.at, 1);
        state.past = state.past || past;
        state.at = put_line(outputs.records, state.at, row);
        Ok(FoundLines { state, count: 1 })
    }

    // The rows of the record of a range of the entry at place p: its own, or its declaration.
    pub fn function_lines(
        self,
        p: usize,
        range: AddressRange,
        work: &mut [u8],
        outputs: &mut Outputs,
        mut state: ImportState,
    ) -> Result<FoundLines, Refusal>
        requires context_in { ContextIn (main_of self) (supplementary_of self) work.old self state.table }
        requires entry_known { EntryKnown (main_of self) self.context.unit p }
        ensures is { LinesTo (function_lines (context_now work.old self.entry) (entry_here (main_of self.entry) p) range)
            self.entry work.old outputs.old state work.new outputs.new result }
        ensures same { SameOutputs outputs.old outputs.new }
    {
        let main = self.context.tables.sheets.main;
        let entry = self.context.entry(p);
        let requested = statement_sequence_offset(main, entry);
        let own = self.lines.for_range(work, range, requested);
        state.warned = warn_sequence(
            main,
            outputs.warnings,
            entry,
            requested,
            own.invalid,
            state.warned,
        )?;
        if own.rows.count == 0 {
            return self.declared_line(p, range.start, work, outputs, state);
        }
        let past = rows_past(state.at, own.rows.count);
        state.past = state.past || past;
        state.at = put_lines(outputs.records, state.at, work, own.rows);
        Ok(FoundLines {
            state,
            count: own.rows.count,
        })
    }
}
