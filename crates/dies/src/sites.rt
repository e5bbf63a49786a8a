// Call sites: the open ones while their entries go on, the closed ones until the record's nodes are laid.
ghost use Rattle.std.specs.Prelude.{◌≡◌, List, ℕ, ◌+◌, ◌*◌, ◌^◌, ◌≤◌, ◌<◌, length};
ghost use Rattle.tlv.specs.Constants.{dw_at_call_return_pc};
ghost use Rattle.tlv.specs.Checked.{Accepted};
ghost use Rattle.tlv.specs.Refusals.{status_of};
ghost use Rattle.tlv.specs.Tags.{entry_whole};
ghost use Rattle.access.specs.Places.{entry_here};
ghost use Rattle.references.specs.Search.{attribute};
ghost use Rattle.references.specs.Tables.{EntryKnown};
ghost use Rattle.dies.specs.Details.{DetailsIn, context_in, main_of, supplementary_of, open_site, closed_site};
ghost use Rattle.dies.specs.DetailState.{PutSite, Closed, none_later, Fits, FitsAt, Quiet, collect_site, ranges_later, entries_left, SitesPut};
ghost use Rattle.dies.specs.Calls.{address_of, address_in};

use crate::details::Details;
use crate::past::{SITE_LEAST, is_past};
use crate::walk::Walk;
use access::access::Value;
use access::index::EntryPlace;
use buffers::numbers::Written;
use references::attributes::attribute_at;
use references::reference_names::resolve_reference_name;
use tlv::bytes::Number;
use tlv::constants::{DW_AT_CALL_ORIGIN, DW_AT_CALL_RETURN_PC};
use tlv::refusal::Refusal;
use tlv::tags::ENTRY_DEPTH;

// Where the offset stands in a closed call site, behind the entry's place, and its bytes.
const CLOSED_OFFSET: usize = 4;

pub const CLOSED_SITE: usize = CLOSED_OFFSET + 8;

// An open one has its entry's depth before that.
const OPEN_PLACE: usize = 2;

pub const OPEN_SITE: usize = OPEN_PLACE + CLOSED_SITE;

// The place in the records after the call sites, and whether they pass the largest place.
// Stays with the two side by side, as Walk, Extracted and ImportState: past the largest place the walk goes on from it, so it is no Option.
#[derive(Clone, Copy, Debug)]
pub struct LaidSites {
    pub at: usize,
    pub past: bool,
}

// The address that a value is, where it is one; a failed one is refused.
fn address_in(v: Option<Value>) -> Result<Option<u64>, Refusal>
    ensures { result ≡ address_in v }
{
    match v {
        Some(Value::Address(n)) => Ok(Some(n)),
        Some(Value::Failed) => Err(Refusal::Decoder),
        _ => Ok(None),
    }
}

// The return address of an entry.
fn return_address(main: &[u8], entry: EntryPlace) -> Result<Option<u64>, Refusal>
    requires accepted { Accepted main.now }
    requires entry_known { EntryKnown main.now entry.unit entry.place }
    ensures { result ≡ address_of (attribute (entry_here main.now entry.place) dw_at_call_return_pc) }
{
    address_in(attribute_at(main, entry, DW_AT_CALL_RETURN_PC))
}

// An open call site: the depth of its entry 2 bytes, the entry's place 4, the return offset 8.
fn put_open_site(work: &mut [u8], at: usize, depth: u16, place: usize, offset: u64)
    requires { (at + open_site ≤ length work.old) × (place < 2 ^ 32) }
    ensures { PutSite work.old work.new at depth place offset }
{
    depth.write(work, at);
    (place as u32).write(work, at + OPEN_PLACE);
    offset.write(work, at + OPEN_PLACE + CLOSED_OFFSET);
}

// How many call sites are open, and how many are closed.
// Stays apart from the places where they begin: these are fixed in the unit's context, and the counts alone change with the walk.
#[derive(Clone, Copy, Debug, Default)]
pub struct Sites {
    pub opened: usize,
    pub closed: usize,
}

impl Sites {
    // The innermost open call sites whose entries are at this depth or deeper go behind the closed ones, for which no depth is kept.
    pub fn finish_call_sites(
        self,
        work: &mut [u8],
        stack: usize,
        closed_at: usize,
        depth: u16,
    ) -> Sites
        requires { (stack + self.opened * open_site ≤ closed_at)
            × (closed_at + self.closed * closed_site + self.opened * closed_site ≤ length work.old) }
        ensures { Closed work.old work.new stack self.opened closed_at self.closed depth result }
    {
        let mut closed = self.closed;
        // Stays a loop: of `find` over a range that is reversed std's lemmas say nothing, and each turn moves a record.
        for i in (0..self.opened).rev() {
            let at = stack + i * OPEN_SITE;
            if u16::read(work, at) < depth {
                return Sites {
                    opened: i + 1,
                    closed,
                };
            }
            let to = closed_at + closed * CLOSED_SITE;
            buffers::table::copy_record(work, at + OPEN_PLACE, to, CLOSED_SITE);
            closed += 1;
        }
        Sites { opened: 0, closed }
    }
}

impl Details<'_> {
    // A call site: its return address is to lie in the function. The name that its origin refers to is searched here only for a refusal.
    pub fn make_call_site(&self, work: &mut [u8], p: usize, walk: &mut Walk) -> Result<(), Refusal>
        requires details_in { DetailsIn (main_of self.now) (supplementary_of self.now) work.old self.now }
        requires entry_known { EntryKnown (main_of self.now) self.now.context.unit p }
        requires fits { FitsAt work.old self.now p walk.old }
        ensures { (lists addresses : List ℕ) → Quiet (collect_site (context_in (main_of self.now) (supplementary_of self.now)
            lists addresses work.old self.now) (entry_here (main_of self.now) p)) (main_of self.now) (supplementary_of self.now) self.now
            (ranges_later (main_of self.now) (p + entry_whole)) (entries_left (main_of self.now) (p + entry_whole))
            work.old walk.old work.new (status_of result) walk.new }
    {
        let context = &self.context;
        let main = context.tables.sheets.main;
        let entry = context.entry(p);
        let Some(address) = return_address(main, entry)? else {
            return Ok(());
        };
        if !self.range.holds(address) {
            return Ok(());
        }
        resolve_reference_name(work, context.tables, entry, DW_AT_CALL_ORIGIN)?;
        let depth = u16::read(main, p + ENTRY_DEPTH);
        let at = context.stack + walk.sites.opened * OPEN_SITE;
        put_open_site(work, at, depth, p, address - self.range.start);
        walk.sites.opened += 1;
        Ok(())
    }

    // The closed call sites: the name of each is searched again, with the same outcome.
    pub fn put_sites(&self, work: &mut [u8], records: &mut [u8], walk: &Walk) -> LaidSites
        requires details_in { DetailsIn (main_of self.now) (supplementary_of self.now) work.old self.now }
        requires fits { Fits (main_of self.now) (supplementary_of self.now) work.old self.now none_later 0 walk.now }
        ensures { SitesPut (main_of self.now) (supplementary_of self.now) self.now walk.now.sites.closed walk.now.at
            work.old work.new records.old records.new result }
    {
        let context = &self.context;
        let mut place = walk.at;
        let mut past = false;
        for i in 0..walk.sites.closed {
            let from = context.sites + i * CLOSED_SITE;
            let entry = context.entry(u32::read(work, from) as usize);
            let offset = u64::read(work, from + CLOSED_OFFSET);
            let found = resolve_reference_name(work, context.tables, entry, DW_AT_CALL_ORIGIN);
            let pattern = found.unwrap();
            past = past || is_past(place, SITE_LEAST + pattern.len());
            place = buffers::output::put_call_site(records, place, offset, pattern);
        }
        LaidSites { at: place, past }
    }
}
