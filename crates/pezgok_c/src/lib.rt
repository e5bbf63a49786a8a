// The functions of `pezgok`, exported for C: include/pezgok.h declares them. Each has the clauses of the function that it calls.
// Stays the copy of pezgok's functions: a crate is a library or a static library, and a Rust caller can depend on the library alone.
// Stays, in all of this crate, with numbers for answers, slices and numbers lent to write an answer to, and parameters apart: the header declares each so.
#![tactic(auto)]

ghost use Rattle.std.specs.Prelude.{[]};
ghost use Rattle.buffers.specs.Buffer.{Put};
ghost use Rattle.dwarf.specs.Runs.{inputs_of};
ghost use Rattle.words.specs.Words.{refusal_word};
ghost use Rattle.pezgok.specs.Exported.{Exports, ExportsMeasure};

pub mod index;
pub mod joins;
pub mod look;
pub mod whole;

// Imports the unit of an ordinal and tells the answer.
// Stays with its parameters apart: include/pezgok.h declares it so.
#[unsafe(no_mangle)]
pub extern "C" fn pezgok_import<'a>(
    main: &'a [u8],
    supplementary: &'a [u8],
    program: &[u8],
    lists: &[u8],
    addresses: &[u8],
    ordinal: u64,
    inlines: bool,
    call_sites: bool,
    first_file: u32,
    work: &mut [u8],
    records: &mut [u8],
    files: &mut [u8],
    warnings: &mut [u8],
    values: &mut [u64; 7],
) -> u8
    ensures { let i = inputs_of main.now supplementary.now program.now lists.now addresses.now ordinal
        inlines call_sites first_file
        work.old records.old files.old warnings.old in
        Exports i work.new records.new files.new warnings.new values.new result }
{
    pezgok::pezgok_import(
        main,
        supplementary,
        program,
        lists,
        addresses,
        ordinal,
        inlines,
        call_sites,
        first_file,
        work,
        records,
        files,
        warnings,
        values,
    )
}

// Tells how long the buffers of such an import must be, and its statistics, or its refusal.
// Stays with its parameters apart: include/pezgok.h declares it so.
#[unsafe(no_mangle)]
pub extern "C" fn pezgok_measure<'a>(
    main: &'a [u8],
    supplementary: &'a [u8],
    program: &[u8],
    lists: &[u8],
    addresses: &[u8],
    ordinal: u64,
    inlines: bool,
    call_sites: bool,
    first_file: u32,
    work: &mut [u8],
    values: &mut [u64; 7],
) -> u8
    ensures { let i = inputs_of main.now supplementary.now program.now lists.now addresses.now ordinal
        inlines call_sites first_file
        work.old [] [] [] in
        ExportsMeasure i work.new values.new result }
{
    pezgok::pezgok_measure(
        main,
        supplementary,
        program,
        lists,
        addresses,
        ordinal,
        inlines,
        call_sites,
        first_file,
        work,
        values,
    )
}

// Writes document 01's word for a refusal's number, as far as it fits, and returns its whole length; 0 for a number that is no refusal's.
// Stays a number: it comes from C, and may be any.
#[unsafe(no_mangle)]
pub extern "C" fn pezgok_refusal_name(refusal: u8, name: &mut [u8]) -> usize
    ensures { Put 0 (refusal_word refusal) name.old name.new result }
{
    pezgok::pezgok_refusal_name(refusal, name)
}
