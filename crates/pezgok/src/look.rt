// The look-ups for callers from C and Rust.
ghost use Rattle.std.specs.Prelude.{◌≡◌};
ghost use Rattle.lookup.specs.Lookup.{nearest_below};
ghost use Rattle.lookup.specs.Window.{functions_inside, functions_crossing};
ghost use Rattle.pezgok.specs.Looked.{ToldFrames, ExportsLookUp, ToldNumber, nearest_in, list_in};

use lookup::model::LookedUp;
use tlv::refusal::Refusal;

// An answer as numbers: returns the refusal's, 0 for none. `found` then has the place of the function, 1 or 0 for a row or none, its place, the number of
// the chain's nodes, and `chain` begins with their places; all else is 0.
pub fn tell_frames(
    answer: Result<LookedUp, Refusal>,
    found: &mut [usize; 4],
    chain: &mut [usize; 257],
) -> u8
    ensures { ToldFrames answer found.new chain.new result }
{
    match answer {
        Err(refusal) => {
            *found = [0; 4];
            *chain = [0; 257];
            refusal.number()
        }
        Ok(x) => {
            let places = x.chain.places;
            *chain = places;
            match x.row {
                Some(place) => {
                    *found = [x.function, 1, place, x.chain.nodes];
                }
                None => {
                    *found = [x.function, 0, 0, x.chain.nodes];
                }
            }
            0
        }
    }
}

// The same of an answer that is one number; it is 0 after a refusal.
pub fn tell_number(answer: Result<usize, Refusal>, number: &mut usize) -> u8
    ensures { ToldNumber answer number.new result }
{
    match answer {
        Err(refusal) => {
            *number = 0;
            refusal.number()
        }
        Ok(n) => {
            *number = n;
            0
        }
    }
}

// What is running at an address.
#[unsafe(no_mangle)]
pub extern "C" fn pezgok_look_up(
    records: &[u8],
    address: u64,
    found: &mut [usize; 4],
    chain: &mut [usize; 257],
) -> u8
    ensures { ExportsLookUp records.now address found.new chain.new result }
{
    let answer = lookup::address::look_up(records, address);
    tell_frames(answer, found, chain)
}

// The function that ends nearest below an address.
#[unsafe(no_mangle)]
pub extern "C" fn pezgok_nearest_below(records: &[u8], address: u64, place: &mut usize) -> u8
    ensures { nearest_in result place.new ≡ nearest_below records.now address }
{
    let answer = lookup::below::nearest_below(records, address);
    tell_number(answer, place)
}

// The functions inside the window from `start` to below `end`.
#[unsafe(no_mangle)]
pub extern "C" fn pezgok_functions_inside(
    records: &[u8],
    start: u64,
    end: u64,
    list: &mut [u8],
    length: &mut usize,
) -> u8
    ensures { list_in result length.new list.new
        ≡ functions_inside records.now (record { start = start; end = end }) list.old }
{
    let answer = lookup::window::functions_inside(records, start, end, list);
    tell_number(answer, length)
}

// The functions that cross the window's edge.
#[unsafe(no_mangle)]
pub extern "C" fn pezgok_functions_crossing(
    records: &[u8],
    start: u64,
    end: u64,
    list: &mut [u8],
    length: &mut usize,
) -> u8
    ensures { list_in result length.new list.new
        ≡ functions_crossing records.now (record { start = start; end = end }) list.old }
{
    let answer = lookup::window::functions_crossing(records, start, end, list);
    tell_number(answer, length)
}
