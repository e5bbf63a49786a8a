// The look-ups, exported for C.
ghost use Rattle.std.specs.Prelude.{◌≡◌};
ghost use Rattle.lookup.specs.Lookup.{nearest_below};
ghost use Rattle.lookup.specs.Window.{functions_inside, functions_crossing};
ghost use Rattle.pezgok.specs.Looked.{ExportsLookUp, nearest_in, list_in};

// What is running at an address.
#[unsafe(no_mangle)]
pub extern "C" fn pezgok_look_up(
    records: &[u8],
    address: u64,
    found: &mut [usize; 4],
    chain: &mut [usize; 257],
) -> u8
    ensures { ExportsLookUp records.now address found.new chain.new result }
{
    pezgok::look::pezgok_look_up(records, address, found, chain)
}

// The function that ends nearest below an address.
#[unsafe(no_mangle)]
pub extern "C" fn pezgok_nearest_below(records: &[u8], address: u64, place: &mut usize) -> u8
    ensures { nearest_in result place.new ≡ nearest_below records.now address }
{
    pezgok::look::pezgok_nearest_below(records, address, place)
}

// The functions inside the window from `start` to below `end`.
#[unsafe(no_mangle)]
pub extern "C" fn pezgok_functions_inside(
    records: &[u8],
    start: u64,
    end: u64,
    list: &mut [u8],
    length: &mut usize,
) -> u8
    ensures { list_in result length.new list.new
        ≡ functions_inside records.now (record { start = start; end = end }) list.old }
{
    pezgok::look::pezgok_functions_inside(records, start, end, list, length)
}

// The functions that cross the window's edge.
#[unsafe(no_mangle)]
pub extern "C" fn pezgok_functions_crossing(
    records: &[u8],
    start: u64,
    end: u64,
    list: &mut [u8],
    length: &mut usize,
) -> u8
    ensures { list_in result length.new list.new
        ≡ functions_crossing records.now (record { start = start; end = end }) list.old }
{
    pezgok::look::pezgok_functions_crossing(records, start, end, list, length)
}
