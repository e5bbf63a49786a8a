// The import of all units for callers from C and Rust.
ghost use Rattle.std.specs.Prelude.{[]};
ghost use Rattle.dwarf.specs.Runs.{inputs_of};
ghost use Rattle.pezgok.specs.Exported.{ExportsDwarf, ExportsMeasureDwarf};

use dwarf::lent::Inputs;
use subprograms::model::Outputs;

// Imports all units of the main input in order and tells the answer.
// Stays beside its twins, with its parameters apart and a number for an answer: include/pezgok.h declares each so.
#[unsafe(no_mangle)]
pub extern "C" fn pezgok_import_dwarf<'a>(
    main: &'a [u8],
    supplementary: &'a [u8],
    program: &[u8],
    lists: &[u8],
    addresses: &[u8],
    inlines: bool,
    call_sites: bool,
    first_file: u32,
    work: &mut [u8],
    records: &mut [u8],
    files: &mut [u8],
    warnings: &mut [u8],
    values: &mut [u64; 7],
) -> u8
    ensures { let i = inputs_of main.now supplementary.now program.now lists.now addresses.now 0
        inlines call_sites first_file
        work.old records.old files.old warnings.old in
        ExportsDwarf i work.new records.new files.new warnings.new values.new result }
{
    let inputs = Inputs::new(main, supplementary, program, lists, addresses);
    let mut outputs = Outputs {
        records,
        files,
        warnings,
    };
    let answer = dwarf::import::import_dwarf(
        inputs,
        inlines,
        call_sites,
        first_file,
        work,
        &mut outputs,
    );
    crate::tell(answer, values)
}

// Tells how long the buffers of such an import must be, and its statistics, or its refusal.
// Stays beside its twins, with its parameters apart and a number for an answer: include/pezgok.h declares each so.
#[unsafe(no_mangle)]
pub extern "C" fn pezgok_measure_dwarf<'a>(
    main: &'a [u8],
    supplementary: &'a [u8],
    program: &[u8],
    lists: &[u8],
    addresses: &[u8],
    inlines: bool,
    call_sites: bool,
    first_file: u32,
    work: &mut [u8],
    values: &mut [u64; 7],
) -> u8
    ensures { let i = inputs_of main.now supplementary.now program.now lists.now addresses.now 0
        inlines call_sites first_file
        work.old [] [] [] in
        ExportsMeasureDwarf i work.new values.new result }
{
    let inputs = Inputs::new(main, supplementary, program, lists, addresses);
    let answer = dwarf::import::measure_dwarf(inputs, inlines, call_sites, first_file, work);
    crate::tell(answer, values)
}
