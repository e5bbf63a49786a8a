// What is running at an address.
ghost use Rattle.std.specs.Prelude.{◌≡◌};
ghost use Rattle.lookup.specs.Walk.{Stands, StandsOwn, FunctionFound, row_from, held_from, ChainAt};
ghost use Rattle.access.specs.Access.{place_of};
ghost use Rattle.lookup.specs.Answers.{LooksUp};

use crate::form::check_records;
use crate::model::{CHAIN_MOST, Chain, LookedUp};
use tlv::bytes::Number;
use tlv::fields::next_field;
use tlv::model::AddressRange;
use tlv::refusal::Refusal;
use tlv::tags::{TRAY_FUNCTION_TAG, TRAY_NODE_TAG, TRAY_RANGE_TAG, TRAY_ROW_TAG};

// A function: the place of its field, and the place behind it, where its own fields begin.
#[derive(Clone, Copy, Debug)]
pub struct FunctionPlace {
    pub place: usize,
    pub own: usize,
}

// The first function that holds the address.
pub fn function_at(s: &[u8], address: u64) -> Option<FunctionPlace>
    requires { Stands s.now 0 }
    ensures { FunctionFound s.now address result }
{
    let mut p = 0;
    // Stays a loop over fields: next_field says why.
    while let Some(field) = next_field(s, p) {
        if field.tag == TRAY_FUNCTION_TAG
            && AddressRange::read(field.payload(s), 0).holds(address)
        {
            return Some(FunctionPlace {
                place: p,
                own: field.next,
            });
        }
        p = field.next;
    }
    None
}

// The last row at or below the address among the own fields of a function, which begin at `own`.
// Stays with tray, place and address apart, as the two below: chain_at asks node_holds of each node's own place, so a struct would be made anew.
pub fn row_in_force(s: &[u8], own: usize, address: u64) -> Option<usize>
    requires { StandsOwn s.now own }
    ensures { place_of result ≡ row_from s.now own address }
{
    let mut p = own;
    let mut row = None;
    // Stays a loop over fields: next_field says why.
    while let Some(field) = next_field(s, p) {
        if field.tag == TRAY_FUNCTION_TAG {
            return row;
        }
        if field.tag == TRAY_ROW_TAG && u64::read(s, field.start) <= address {
            row = Some(p);
        }
        p = field.next;
    }
    row
}

// Whether one of the ranges of a node, whose own fields begin at `own`, holds the address.
fn node_holds(s: &[u8], own: usize, address: u64) -> bool
    requires { StandsOwn s.now own }
    ensures { result ≡ held_from s.now own address }
{
    let mut p = own;
    // Stays a loop over fields: next_field says why.
    while let Some(field) = next_field(s, p) {
        if field.tag == TRAY_FUNCTION_TAG || field.tag == TRAY_NODE_TAG {
            return false;
        }
        if field.tag == TRAY_RANGE_TAG && AddressRange::read(field.payload(s), 0).holds(address) {
            return true;
        }
        p = field.next;
    }
    false
}

// The chain of nodes that hold the address, of the function whose own fields begin at `own`.
pub fn chain_at(s: &[u8], own: usize, address: u64) -> Chain
    requires { StandsOwn s.now own }
    ensures { ChainAt s.now own address result }
{
    let mut places = [0; CHAIN_MOST];
    let mut nodes = 0;
    let mut p = own;
    // Stays a loop over fields: next_field says why.
    while let Some(field) = next_field(s, p) {
        if field.tag == TRAY_FUNCTION_TAG {
            break;
        }
        if field.tag == TRAY_NODE_TAG {
            let depth = u16::read(s, field.start) as usize;
            if depth < nodes {
                break;
            }
            if depth == nodes && node_holds(s, field.next, address) {
                places[nodes] = p;
                nodes += 1;
            }
        }
        p = field.next;
    }
    Chain { places, nodes }
}

// What is running at an address: the first function in the tray that holds it, its row in force, the chain of its nodes that hold it.
// Stays beside look_index's look_up_in: alike are row_in_force and chain_at, which fill the struct, behind a search of its own in each.
pub fn look_up(s: &[u8], address: u64) -> Result<LookedUp, Refusal>
    ensures { LooksUp s.now address result }
{
    if !check_records(s) {
        return Err(Refusal::MisshapenRecords);
    }
    let found = function_at(s, address).ok_or(Refusal::NoFunction)?;
    Ok(LookedUp {
        function: found.place,
        row: row_in_force(s, found.own, address),
        chain: chain_at(s, found.own, address),
    })
}
