// The import for callers from C and Rust: include/pezgok.h declares these functions.
// Stays, in all of this crate, with numbers for answers and for refusals, slices and numbers lent to write an answer to, and parameters apart: the header
// declares each function so, and each `tell` writes one kind of answer in that form.
#![tactic(auto)]

ghost use Rattle.std.specs.Prelude.{◌≡◌, []};
ghost use Rattle.buffers.specs.Buffer.{Put};
ghost use Rattle.dwarf.specs.Runs.{inputs_of};
ghost use Rattle.dwarf.specs.Answers.{answer_given};
ghost use Rattle.words.specs.Words.{refusal_word};
ghost use Rattle.pezgok.specs.Exported.{answer_in, Exports, ExportsMeasure};

use dwarf::lent::Inputs;
use dwarf::model::Imported;
use subprograms::model::Outputs;
use tlv::refusal::Refusal;

pub mod index;
pub mod joins;
pub mod look;
pub mod whole;

// An answer as numbers: returns the refusal's, 0 for none. `values` then has the lengths of records, files and warnings, then functions, line rows,
// inline nodes, rejected ranges; all 0 after a refusal.
pub fn tell(answer: Result<Imported, Refusal>, values: &mut [u64; 7]) -> u8
    ensures { answer_given answer ≡ answer_in result values.new }
{
    match answer {
        Err(refusal) => {
            *values = [0; 7];
            refusal.number()
        }
        Ok(finished) => {
            *values = [
                finished.lengths.records as u64,
                finished.lengths.files as u64,
                finished.lengths.warnings as u64,
                finished.stats.functions,
                finished.stats.line_rows,
                finished.stats.inline_nodes,
                finished.stats.rejected_ranges,
            ];
            0
        }
    }
}

// Imports the unit of an ordinal and tells the answer.
// Stays with its parameters apart and a number for an answer: include/pezgok.h declares it so.
#[unsafe(no_mangle)]
pub extern "C" fn pezgok_import<'a>(
    main: &'a [u8],
    supplementary: &'a [u8],
    program: &[u8],
    lists: &[u8],
    addresses: &[u8],
    ordinal: u64,
    inlines: bool,
    call_sites: bool,
    first_file: u32,
    work: &mut [u8],
    records: &mut [u8],
    files: &mut [u8],
    warnings: &mut [u8],
    values: &mut [u64; 7],
) -> u8
    ensures { let i = inputs_of main.now supplementary.now program.now lists.now addresses.now ordinal
        inlines call_sites first_file
        work.old records.old files.old warnings.old in
        Exports i work.new records.new files.new warnings.new values.new result }
{
    let inputs = Inputs::new(main, supplementary, program, lists, addresses);
    let mut outputs = Outputs {
        records,
        files,
        warnings,
    };
    let answer = dwarf::import::import_unit(
        inputs,
        ordinal,
        inlines,
        call_sites,
        first_file,
        work,
        &mut outputs,
    );
    tell(answer, values)
}

// Tells how long the buffers of such an import must be, and its statistics, or its refusal.
// Stays beside its twin, with its parameters apart and a number for an answer: include/pezgok.h declares both so.
#[unsafe(no_mangle)]
pub extern "C" fn pezgok_measure<'a>(
    main: &'a [u8],
    supplementary: &'a [u8],
    program: &[u8],
    lists: &[u8],
    addresses: &[u8],
    ordinal: u64,
    inlines: bool,
    call_sites: bool,
    first_file: u32,
    work: &mut [u8],
    values: &mut [u64; 7],
) -> u8
    ensures { let i = inputs_of main.now supplementary.now program.now lists.now addresses.now ordinal
        inlines call_sites first_file
        work.old [] [] [] in
        ExportsMeasure i work.new values.new result }
{
    let inputs = Inputs::new(main, supplementary, program, lists, addresses);
    let answer = dwarf::import::measure_unit(
        inputs, ordinal, inlines, call_sites, first_file, work,
    );
    tell(answer, values)
}

// Writes document 01's word for a refusal's number, as far as it fits, and returns its whole length; 0 for a number that is no refusal's.
// Stays a number: it comes from C, and may be any.
#[unsafe(no_mangle)]
pub extern "C" fn pezgok_refusal_name(refusal: u8, name: &mut [u8]) -> usize
    ensures { Put 0 (refusal_word refusal) name.old name.new result }
{
    words::put_word(refusal, name)
}
