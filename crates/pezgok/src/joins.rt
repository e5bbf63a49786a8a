// Symbols joined to a records tray, for callers from C and Rust.
ghost use Rattle.pezgok.specs.Joined.{ExportsJoin};

use crate::look::tell_number;

// Joins the symbols of a list to a records tray and tells the answer.
#[unsafe(no_mangle)]
pub extern "C" fn pezgok_join_symbols(
    records: &[u8],
    list: &[u8],
    res: &mut [u8],
    work: &mut [u8],
    length: &mut usize,
) -> u8
    ensures { ExportsJoin records.now list.now res.old res.new
        work.old work.new length.new result }
{
    let answer = symbols::join::join_symbols_with(records, list, res, work);
    tell_number(answer, length)
}
