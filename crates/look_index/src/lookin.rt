// Look-ups by an index of a tray: a binary search where it is in the order of addresses, else a pass over it. Of the tray only the function that is found
// is read, and its form is tested. Any bytes are taken for an index, and for a tray.
ghost use Rattle.std.specs.Prelude.{◌<◌};
ghost use Rattle.look_index.specs.LookIn.{Boundary, SearchedBy, ScannedBy, Chosen, IsHere, LooksUpIn};

use crate::index::{EXTENT_SIZE, Extents};
use buffers::search::lower_bound;
use lookup::address::{chain_at, row_in_force};
use lookup::form::{function_formed, own_formed};
use lookup::model::{Indexed, LookedUp};
use tlv::fields::next_field;
use tlv::refusal::Refusal;
use tlv::tags::TRAY_FUNCTION_TAG;

// How many extents start at or below the address, where they are in that order: a binary search.
fn boundary(extents: Extents, address: u64) -> usize
    ensures { Boundary extents.entry.index.now extents.entry.count address result }
{
    lower_bound(extents.count, |k| extents.at(k).range.start <= address)
}

// The last of the extents that start at or below the address, if it holds it.
// Stays beside symbols' `holds_apart`, over another table, as `Extents` says: this tells which extent holds the address, that whether a range does.
fn by_search(extents: Extents, address: u64) -> Option<usize>
    ensures { SearchedBy extents.entry.index.now extents.entry.count address result }
{
    let last = boundary(extents, address).checked_sub(1)?;
    (address < extents.at(last).range.end).then_some(last)
}

// The first extent that holds the address.
fn by_pass(extents: Extents, address: u64) -> Option<usize>
    ensures { ScannedBy extents.entry.index.now extents.entry.count address result }
{
    (0..extents.count).find(
        |&i|
            requires { i < extents.count }
        { extents.at(i).range.holds(address) },
    )
}

// By a search where the extents rise, else by a pass.
// Stays a bool: it is the caller's word, `Indexed::rising`, which C keeps beside the index and hands back.
fn choose(extents: Extents, rising: bool, address: u64) -> Option<usize>
    ensures { Chosen extents.entry.index.now extents.entry.count rising address result }
{
    if rising {
        by_search(extents, address)
    } else {
        by_pass(extents, address)
    }
}

// Where the own fields of the function at a place begin, if one in document 01's form stands there.
fn check_function(s: &[u8], place: usize) -> Result<usize, Refusal>
    ensures { IsHere s.now place result }
{
    let field = next_field(s, place).ok_or(Refusal::MisshapenRecords)?;
    if field.tag != TRAY_FUNCTION_TAG
        || !function_formed(field.payload(s))
        || !own_formed(s, field.next)
    {
        return Err(Refusal::MisshapenRecords);
    }
    Ok(field.next)
}

// What is running at an address, by an index and what is said of it: how many functions it has, in the order of their addresses or not.
pub fn look_up_in(s: &[u8], index: &[u8], said: Indexed, address: u64) -> Result<LookedUp, Refusal>
    ensures { LooksUpIn s.now index.now said.functions said.rising address result }
{
    if index.len() / EXTENT_SIZE < said.functions {
        return Err(Refusal::ShortWork);
    }
    let extents = Extents {
        index,
        count: said.functions,
    };
    let k = choose(extents, said.rising, address).ok_or(Refusal::NoFunction)?;
    let function = extents.at(k).place as usize;
    let own = check_function(s, function)?;
    let row = row_in_force(s, own, address);
    let chain = chain_at(s, own, address);
    Ok(LookedUp {
        function,
        row,
        chain,
    })
}
