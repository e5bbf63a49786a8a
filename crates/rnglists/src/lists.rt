// A range list, a range at a time (DWARF 5, 2.17.3).
ghost use Rattle.std.specs.Prelude.{◌≡◌, ◌⊎◌, ◌+◌, ◌≤◌, length};
ghost use Rattle.tlv.specs.Bytes.{AreBytes, le_at};
ghost use Rattle.tlv.specs.Grammar.{list_size_at, list_field_size};
ghost use Rattle.rnglists.specs.Sizes.{width_of};
ghost use Rattle.rnglists.specs.Steps.{SaysBounded, SaysPair, FindsAddress, Says, FieldIs, NextIs};

use crate::entries::{ListEntry, read_entry};
use crate::sizes::AddressSize;
use tlv::bytes::Number;
use tlv::model::AddressRange;
use tlv::refusal::Refusal;
use tlv::shapes::{LIST_ADDRESSES, LIST_BASE, LIST_SIZE};

// The range lists of an import, and the table of addresses that they refer to.
#[derive(Clone, Copy, Debug)]
pub struct RangeLists<'a> {
    pub lists: &'a [u8],
    pub addresses: &'a [u8],
    ghost bytes: { AreBytes lists.now × AreBytes addresses.now },
}

// The fewest bytes of a list that give a range.
pub const RANGE_LEAST: usize = 3;

// What an entry says.
// Stays an enum: the list ends, goes on from another base, or gives a range, and a range may be dead. `dead` stays beside the range, as in ListRange: inlined
// entries take the range alone, and what judges a subprogram's asks for the range five times and for `dead` once, so a struct of both would be taken apart.
#[derive(Clone, Copy, Debug, PartialEq, Eq)]
pub enum Meant {
    End,
    Base(u64),
    Range { range: AddressRange, dead: bool },
}

// What a field 1f says of a list: its place, the base address there, the place that indices of addresses count from, and how many bytes an address takes.
#[derive(Clone, Copy, Debug)]
pub struct ListField {
    pub offset: u64,
    pub base: u64,
    pub addresses: u64,
    pub size: AddressSize,
}

impl ListField {
    // That of the field whose payload starts at a place.
    pub fn read(s: &[u8], start: usize) -> ListField
        requires in_bounds { start + list_field_size ≤ length s.now }
        requires size_known { (le_at 1 s.now (start + list_size_at) ≡ 4) ⊎ (le_at 1 s.now (start + list_size_at) ≡ 8) }
        ensures { FieldIs s.now start result }
    {
        ListField {
            offset: u64::read(s, start),
            base: u64::read(s, start + LIST_BASE),
            addresses: u64::read(s, start + LIST_ADDRESSES),
            size: AddressSize::of(u8::read(s, start + LIST_SIZE)),
        }
    }
}

// A range of a list, and whether it is dead, with the place and the base address behind it.
#[derive(Clone, Copy, Debug, PartialEq, Eq)]
pub struct ListRange {
    pub range: AddressRange,
    pub dead: bool,
    pub next: usize,
    pub base: u64,
}

// A range between two addresses of a size whose largest one is `top`.
fn bounded(top: u64, start: u64, end: u64) -> Result<Meant, Refusal>
    ensures { SaysBounded top start end result }
{
    if start == top {
        return Ok(Meant::Range {
            range: AddressRange { start, end: top },
            dead: true,
        });
    }
    if top < start || top < end {
        return Err(Refusal::WideAddress);
    }
    Ok(Meant::Range {
        range: AddressRange { start, end },
        dead: false,
    })
}

// A range by its start and its length.
fn bounded_length(top: u64, start: u64, size: u64) -> Result<Meant, Refusal>
    ensures { SaysBounded top start (start + size) result }
{
    if start == top {
        return bounded(top, start, start);
    }
    if top < start || top - start < size {
        return Err(Refusal::WideAddress);
    }
    bounded(top, start, start + size)
}

// An offset pair from a base address.
#[tactic(auto, using(crate::proofs::lists::MeaningLaws::pairs))]
fn offset_pair(top: u64, base: u64, first: u64, second: u64) -> Result<Meant, Refusal>
    ensures { SaysPair top base first second result }
{
    if base == top {
        return bounded(top, top, top);
    }
    if top < base {
        return Err(Refusal::WideAddress);
    }
    let room = top - base;
    if room < first {
        return Err(Refusal::WideAddress);
    }
    let start = base + first;
    if start == top {
        return bounded(top, start, start);
    }
    if room < second {
        return Err(Refusal::WideAddress);
    }
    bounded(top, start, base + second)
}

// A table of addresses, with the byte place from which indices count and the size of an address.
#[derive(Clone, Copy, Debug)]
struct AddressTable<'a> {
    bytes: &'a [u8],
    place: u64,
    size: AddressSize,
}

impl AddressTable<'_> {
    // The address of an index.
    fn at(self, index: u64) -> Result<u64, Refusal>
        ensures { FindsAddress self.entry.bytes.now self.entry.place (width_of self.entry.size) index result }
    {
        let len = self.bytes.len() as u64;
        if len < self.place {
            return Err(Refusal::NoAddress);
        }
        let room = len - self.place;
        let width = self.size.width() as u64;
        if room / width <= index {
            return Err(Refusal::NoAddress);
        }
        Ok(
            self.size
                .read(self.bytes, (self.place + index * width) as usize),
        )
    }

    // What an entry says, from a base address.
    fn meaning_of(self, base: u64, entry: ListEntry) -> Result<Meant, Refusal>
        ensures { Says self.entry.bytes.now self.entry.place (width_of self.entry.size) base entry result }
    {
        let top = self.size.largest();
        // Stays a match: each kind says a thing of its own.
        match entry {
            ListEntry::EndOfList => Ok(Meant::End),
            ListEntry::BaseAddressx(index) => {
                let base = self.at(index)?;
                Ok(Meant::Base(base))
            }
            ListEntry::StartxEndx(start, end) => {
                let start = self.at(start)?;
                let end = self.at(end)?;
                bounded(top, start, end)
            }
            ListEntry::StartxLength(start, length) => {
                let start = self.at(start)?;
                bounded_length(top, start, length)
            }
            ListEntry::OffsetPair(start, end) => offset_pair(top, base, start, end),
            ListEntry::BaseAddress(base) => Ok(Meant::Base(base)),
            ListEntry::StartEnd(start, end) => bounded(top, start, end),
            ListEntry::StartLength(start, length) => bounded_length(top, start, length),
        }
    }
}

impl RangeLists<'_> {
    // The next range of the list at a place, from a base address; none at the list's end.
    // Stays with place, size, `at` and base apart, though ListField has them: `at` and base move with each range, and a field would be made anew.
    pub fn next_range(
        self,
        place: u64,
        size: AddressSize,
        at: usize,
        base: u64,
    ) -> Result<Option<ListRange>, Refusal>
        ensures { NextIs self.entry.lists.now self.entry.addresses.now place (width_of size) at base result }
    {
        let table = AddressTable {
            bytes: self.addresses,
            place,
            size,
        };
        let mut p = at;
        let mut base = base;
        // Stays a loop: each entry's own length moves the place.
        loop {
            let read = read_entry(self.lists, p, size)?;
            match table.meaning_of(base, read.entry)? {
                Meant::End => {
                    return Ok(None);
                }
                Meant::Base(next) => {
                    base = next;
                    p = read.next;
                }
                Meant::Range { range, dead } => {
                    return Ok(Some(ListRange {
                        range,
                        dead,
                        next: read.next,
                        base,
                    }));
                }
            }
        }
    }
}
