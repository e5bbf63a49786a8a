// Symbols joined to a records tray, exported for C.
ghost use Rattle.pezgok.specs.Joined.{ExportsJoin};

// Joins the symbols of a list to a records tray and tells the answer.
#[unsafe(no_mangle)]
pub extern "C" fn pezgok_join_symbols(
    records: &[u8],
    list: &[u8],
    res: &mut [u8],
    work: &mut [u8],
    length: &mut usize,
) -> u8
    ensures { ExportsJoin records.now list.now res.old res.new
        work.old work.new length.new result }
{
    pezgok::joins::pezgok_join_symbols(records, list, res, work, length)
}
