// The index of a records tray and look-ups by it, for callers from C and Rust.
ghost use Rattle.pezgok.specs.Looked.{ToldIndex, ExportsIndex, ExportsLookUpIn};

use crate::look::tell_frames;
use lookup::model::Indexed;
use tlv::refusal::Refusal;

fn tell_index(answer: Result<Indexed, Refusal>, functions: &mut usize, rising: &mut bool) -> u8
    ensures { ToldIndex answer functions.new rising.new result }
{
    match answer {
        Err(refusal) => {
            *functions = 0;
            *rising = false;
            refusal.number()
        }
        Ok(x) => {
            *functions = x.functions;
            *rising = x.rising;
            0
        }
    }
}

// Makes the index of a tray: 24 bytes for each function.
#[unsafe(no_mangle)]
pub extern "C" fn pezgok_make_index(
    records: &[u8],
    index: &mut [u8],
    functions: &mut usize,
    rising: &mut bool,
) -> u8
    ensures { ExportsIndex records.now index.old index.new functions.new rising.new result }
{
    let answer = look_index::index::make_index(records, index);
    tell_index(answer, functions, rising)
}

// What is running at an address, by an index.
#[unsafe(no_mangle)]
pub extern "C" fn pezgok_look_up_in(
    records: &[u8],
    index: &[u8],
    functions: usize,
    rising: bool,
    address: u64,
    found: &mut [usize; 4],
    chain: &mut [usize; 257],
) -> u8
    ensures { ExportsLookUpIn records.now index.now functions rising address found.new chain.new result }
{
    let answer = look_index::lookin::look_up_in(
        records,
        index,
        Indexed { functions, rising },
        address,
    );
    tell_frames(answer, found, chain)
}
