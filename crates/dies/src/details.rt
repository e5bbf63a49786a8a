// What the walk below a subprogram is given.
ghost use Rattle.std.specs.Prelude.{◌≡◌, ◌+◌, ◌<◌, length};

use access::index::EntryPlace;
use buffers::table::Stored;
use references::tables::Tables;
use rnglists::lists::RangeLists;
use tlv::model::{AddressRange, FileIndex};

// What is the same for every subprogram of a unit: the searches' tables with the sheets, the range lists, the unit's place and its map of file numbers,
// where the open nodes' ranges, the open and the closed call sites are put, the two switches, and whether any entry of the main sheet names a list.
// Stays a flag beside the lists: it tells whether an entry names one, while the section is lent in any case and the laws of its room speak of its length.
#[derive(Clone, Copy, Debug)]
pub struct UnitContext<'a> {
    pub tables: Tables<'a>,
    pub lists: RangeLists<'a>,
    pub unit: usize,
    pub indices: Stored<FileIndex>,
    pub ranges: usize,
    pub stack: usize,
    pub sites: usize,
    pub include_inlines: bool,
    pub include_call_sites: bool,
    pub with_lists: bool,
}

impl UnitContext<'_> {
    // The entry at a place of the unit.
    pub fn entry(&self, place: usize) -> EntryPlace
        ensures { result ≡ record { place = place; unit = self.now.unit } }
    {
        EntryPlace {
            place,
            unit: self.unit,
        }
    }
}

// .. and for every entry below a subprogram: its name, its depth and its range.
// Stays a ghost field that the name is short, as in Node, InlinedCall and subprograms' Subprogram: a type of a short name would be taken apart at each write.
#[derive(Clone, Copy, Debug)]
pub struct Details<'a> {
    pub context: UnitContext<'a>,
    pub name: &'a [u8],
    pub depth: u16,
    pub range: AddressRange,
    ghost name_bound: { 10 + length name.now < 65536 },
}
