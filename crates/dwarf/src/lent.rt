// What a caller lends to an import.
ghost use Rattle.dwarf.specs.Given.{Holds};

use files::sheets::Sheets;
use rnglists::lists::RangeLists;

// What is read: both inputs, the line program, the range lists and their addresses.
#[derive(Clone, Copy, Debug)]
pub struct Inputs<'a> {
    pub sheets: Sheets<'a>,
    pub program: &'a [u8],
    pub lists: RangeLists<'a>,
}

impl<'a> Inputs<'a> {
    // What five slices hold, as a caller has them.
    pub fn new(
        main: &'a [u8],
        supplementary: &'a [u8],
        program: &'a [u8],
        lists: &'a [u8],
        addresses: &'a [u8],
    ) -> Inputs<'a>
        ensures { Holds main.now supplementary.now program.now lists.now addresses.now result }
    {
        Inputs {
            sheets: Sheets {
                main,
                supplementary,
            },
            program,
            lists: RangeLists { lists, addresses },
        }
    }
}
