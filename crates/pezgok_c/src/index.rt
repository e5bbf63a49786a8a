// The index of a records tray and look-ups by it, exported for C.
ghost use Rattle.pezgok.specs.Looked.{ExportsIndex, ExportsLookUpIn};

// Makes the index of a tray: 24 bytes for each function.
#[unsafe(no_mangle)]
pub extern "C" fn pezgok_make_index(
    records: &[u8],
    index: &mut [u8],
    functions: &mut usize,
    rising: &mut bool,
) -> u8
    ensures { ExportsIndex records.now index.old index.new functions.new rising.new result }
{
    pezgok::index::pezgok_make_index(records, index, functions, rising)
}

// What is running at an address, by an index.
#[unsafe(no_mangle)]
pub extern "C" fn pezgok_look_up_in(
    records: &[u8],
    index: &[u8],
    functions: usize,
    rising: bool,
    address: u64,
    found: &mut [usize; 4],
    chain: &mut [usize; 257],
) -> u8
    ensures { ExportsLookUpIn records.now index.now functions rising address found.new chain.new result }
{
    pezgok::index::pezgok_look_up_in(records, index, functions, rising, address, found, chain)
}
