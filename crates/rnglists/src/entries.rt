// One entry of a range list (DWARF 5, 7.25): its kind and its operands. The faults are 7, 10, 11 and 23.
ghost use Rattle.std.specs.Prelude.{◌≡◌, ◌≤◌, length};
ghost use Rattle.rnglists.specs.Standard.{address};
ghost use Rattle.rnglists.specs.Sizes.{width_of};
ghost use Rattle.rnglists.specs.Steps.{ReadsOperand, ReadsKind, ReadsEntry};

use crate::sizes::AddressSize;
use line_program::operand::{Operand, read_line_uleb};
use tlv::refusal::Refusal;

// The kinds, as the Standard's table 7.30 numbers them.
const DW_RLE_END_OF_LIST: u8 = 0;

const DW_RLE_BASE_ADDRESSX: u8 = 1;

const DW_RLE_STARTX_ENDX: u8 = 2;

const DW_RLE_STARTX_LENGTH: u8 = 3;

const DW_RLE_OFFSET_PAIR: u8 = 4;

const DW_RLE_BASE_ADDRESS: u8 = 5;

const DW_RLE_START_END: u8 = 6;

const DW_RLE_START_LENGTH: u8 = 7;

// An entry by its kind, with its operands as they stand: with an `x` the first is an index of an address, and in StartxEndx both are.
#[derive(Clone, Copy, Debug)]
pub enum ListEntry {
    EndOfList,
    BaseAddressx(u64),
    StartxEndx(u64, u64),
    StartxLength(u64, u64),
    OffsetPair(u64, u64),
    BaseAddress(u64),
    StartEnd(u64, u64),
    StartLength(u64, u64),
}

// An entry that was read, and the place after it.
// Stays beside line_program's Operand: one type over both would be written Operand<u64> wherever line programs are read, for this one other use.
#[derive(Clone, Copy, Debug)]
pub struct EntryRead {
    pub entry: ListEntry,
    pub next: usize,
}

impl ListEntry {
    // This entry, which ends at a place.
    fn until(self, next: usize) -> EntryRead
        ensures { result ≡ record { entry = self; next = next } }
    {
        EntryRead { entry: self, next }
    }
}

// A target address.
// Stays with its place required to lie in the lists: it moves with each operand, so a type of both would be made anew at each.
fn read_address(lists: &[u8], at: usize, size: AddressSize) -> Result<Operand, Refusal>
    requires { at ≤ length lists.now }
    ensures { ReadsOperand lists.now at (width_of size) address result }
{
    let width = size.width();
    if lists.len() - at < width {
        return Err(Refusal::CutList);
    }
    Ok(Operand {
        value: size.read(lists, at),
        next: at + width,
    })
}

// The entry of a kind whose operands begin at a place.
fn read_kind(lists: &[u8], at: usize, size: AddressSize, kind: u8) -> Result<EntryRead, Refusal>
    requires { at ≤ length lists.now }
    ensures { ReadsKind lists.now at (width_of size) kind result }
{
    // Stays a match: the Standard's own table. Three kinds have two numbers alike; a reader of both would hand a pair that each arm takes apart.
    match kind {
        DW_RLE_END_OF_LIST => Ok(ListEntry::EndOfList.until(at)),
        DW_RLE_BASE_ADDRESSX => {
            let index = read_line_uleb(lists, at)?;
            Ok(ListEntry::BaseAddressx(index.value).until(index.next))
        }
        DW_RLE_STARTX_ENDX => {
            let start = read_line_uleb(lists, at)?;
            let end = read_line_uleb(lists, start.next)?;
            Ok(ListEntry::StartxEndx(start.value, end.value).until(end.next))
        }
        DW_RLE_STARTX_LENGTH => {
            let start = read_line_uleb(lists, at)?;
            let length = read_line_uleb(lists, start.next)?;
            Ok(ListEntry::StartxLength(start.value, length.value).until(length.next))
        }
        DW_RLE_OFFSET_PAIR => {
            let start = read_line_uleb(lists, at)?;
            let end = read_line_uleb(lists, start.next)?;
            Ok(ListEntry::OffsetPair(start.value, end.value).until(end.next))
        }
        DW_RLE_BASE_ADDRESS => {
            let base = read_address(lists, at, size)?;
            Ok(ListEntry::BaseAddress(base.value).until(base.next))
        }
        DW_RLE_START_END => {
            let start = read_address(lists, at, size)?;
            let end = read_address(lists, start.next, size)?;
            Ok(ListEntry::StartEnd(start.value, end.value).until(end.next))
        }
        DW_RLE_START_LENGTH => {
            let start = read_address(lists, at, size)?;
            let length = read_line_uleb(lists, start.next)?;
            Ok(ListEntry::StartLength(start.value, length.value).until(length.next))
        }
        _ => Err(Refusal::CutList),
    }
}

// The entry at a place.
pub fn read_entry(lists: &[u8], at: usize, size: AddressSize) -> Result<EntryRead, Refusal>
    ensures { ReadsEntry lists.now at (width_of size) result }
{
    if lists.len() <= at {
        return Err(Refusal::CutList);
    }
    read_kind(lists, at + 1, size, lists[at])
}
