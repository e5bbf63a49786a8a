// The import of all units, exported for C.
ghost use Rattle.std.specs.Prelude.{[]};
ghost use Rattle.dwarf.specs.Runs.{inputs_of};
ghost use Rattle.pezgok.specs.Exported.{ExportsDwarf, ExportsMeasureDwarf};

// Imports all units of the main input in order and tells the answer.
// Stays with its parameters apart: include/pezgok.h declares it so.
#[unsafe(no_mangle)]
pub extern "C" fn pezgok_import_dwarf<'a>(
    main: &'a [u8],
    supplementary: &'a [u8],
    program: &[u8],
    lists: &[u8],
    addresses: &[u8],
    inlines: bool,
    call_sites: bool,
    first_file: u32,
    work: &mut [u8],
    records: &mut [u8],
    files: &mut [u8],
    warnings: &mut [u8],
    values: &mut [u64; 7],
) -> u8
    ensures { let i = inputs_of main.now supplementary.now program.now lists.now addresses.now 0
        inlines call_sites first_file
        work.old records.old files.old warnings.old in
        ExportsDwarf i work.new records.new files.new warnings.new values.new result }
{
    pezgok::whole::pezgok_import_dwarf(
        main,
        supplementary,
        program,
        lists,
        addresses,
        inlines,
        call_sites,
        first_file,
        work,
        records,
        files,
        warnings,
        values,
    )
}

// Tells how long the buffers of such an import must be, and its statistics, or its refusal.
// Stays with its parameters apart: include/pezgok.h declares it so.
#[unsafe(no_mangle)]
pub extern "C" fn pezgok_measure_dwarf<'a>(
    main: &'a [u8],
    supplementary: &'a [u8],
    program: &[u8],
    lists: &[u8],
    addresses: &[u8],
    inlines: bool,
    call_sites: bool,
    first_file: u32,
    work: &mut [u8],
    values: &mut [u64; 7],
) -> u8
    ensures { let i = inputs_of main.now supplementary.now program.now lists.now addresses.now 0
        inlines call_sites first_file
        work.old [] [] [] in
        ExportsMeasureDwarf i work.new values.new result }
{
    pezgok::whole::pezgok_measure_dwarf(
        main,
        supplementary,
        program,
        lists,
        addresses,
        inlines,
        call_sites,
        first_file,
        work,
        values,
    )
}
