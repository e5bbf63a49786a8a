// Names by reference: the entry search calls the absolute-reference search and back, and the number of entries that are left falls.
ghost use Rattle.std.specs.Prelude.{◌≡◌, ◌-◌};
ghost use Rattle.tlv.specs.Refusals.{status_of};
ghost use Rattle.access.specs.Places.{entry_here, unit_here};
ghost use Rattle.references.specs.Search.{resolve_name};
ghost use Rattle.references.specs.Reads.{counted_name, name_reads, ReadsWithin};
ghost use Rattle.references.specs.Tables.{EntryKnown, bytes_of};
ghost use Rattle.references.specs.Names.{dwarf_of, search_source, place_at, Stands, Aims, SearchIn, name_given, found_name, Gives};
ghost use Rattle.references.specs.Names.{referred_name, resolve_absolute_name, start_at, Resolved};

use crate::attributes::own_name;
use crate::keys::{is_visited, push_key};
use crate::tables::Tables;
use crate::trails::{Counted, Trail};
use crate::ways::{EntryAt, OffsetAt, Way, way_of};
use access::index::EntryPlace;
use tlv::constants::{DW_AT_ABSTRACT_ORIGIN, DW_AT_SPECIFICATION};
use tlv::model::DebugSource;
use tlv::refusal::Refusal;

// How many entries in a row a search looks at.
const CHAIN_LIMIT: u8 = 64;

// The name that a search found: no bytes are none, the form that document 01 names.
pub fn found_name<'a>(name: &'a [u8]) -> Option<&'a [u8]>
    ensures { name_given result ≡ found_name name.now }
{
    if name.is_empty() {
        return None;
    }
    Some(name)
}

// The name of an entry: its own, or the first that its references lead to; no bytes are none.
// Stays two calls, the second the answer: a loop over both names has the same call, test and return, and a line more for no name.
// The tables, and where the search stands, are lent, here and below: handed by value they were copied at each of up to 64 levels.
// Stays with work, trail and tables apart, as the two below: is_visited, way_of and push_key take the trail's count alone, and work to read or to write.
#[cycle(referred_name_resolve_absolute_name_resolve_name_inner)]
pub fn resolve_name_inner<'a>(
    work: &mut [u8],
    trail: &mut Trail,
    x: &Tables<'a>,
    at: &EntryAt,
) -> Result<&'a [u8], Refusal>
    requires search_in { SearchIn x.now.sheets.main.now x.now.sheets.supplementary.now work.old x.now trail.old.count }
    requires stands { Stands x.now.sheets.main.now x.now.sheets.supplementary.now at.now }
    ensures { let main = x.now.sheets.main.now in let supplementary = x.now.sheets.supplementary.now in
        Gives (counted_name at.now.left (dwarf_of main supplementary) (place_at main supplementary at.now)) main supplementary
        x.now work.old trail.old.count trail.old.reads work.new trail.new.count trail.new.reads
        (status_of result) (bytes_of result) }
{
    if at.left == 0 {
        return Ok(&x.sheets.main[..0]);
    }
    let own = own_name(x.sheets.of(at.input), at.entry)?;
    if !own.is_empty() {
        return Ok(own);
    }
    let origin = referred_name(work, trail, x, at, DW_AT_ABSTRACT_ORIGIN)?;
    if !origin.is_empty() {
        return Ok(origin);
    }
    referred_name(work, trail, x, at, DW_AT_SPECIFICATION)
}

// The name that the attribute of a name of an entry leads to.
// Laid into resolve_name_inner, whose frame then serves both: with a call of its own entries without a name took a sixth more time.
#[inline(always)]
#[cycle(referred_name_resolve_absolute_name_resolve_name_inner)]
pub fn referred_name<'a>(
    work: &mut [u8],
    trail: &mut Trail,
    x: &Tables<'a>,
    at: &EntryAt,
    name: u16,
) -> Result<&'a [u8], Refusal>
    requires search_in { SearchIn x.now.sheets.main.now x.now.sheets.supplementary.now work.old x.now trail.old.count }
    requires stands { Stands x.now.sheets.main.now x.now.sheets.supplementary.now at.now }
    ensures { let main = x.now.sheets.main.now in let supplementary = x.now.sheets.supplementary.now in
        Gives (referred_name (at.now.left - 1) main supplementary at.now name) main supplementary
        x.now work.old trail.old.count trail.old.reads work.new trail.new.count trail.new.reads
        (status_of result) (bytes_of result) }
{
    match way_of(work, x, trail.count, at, name)? {
        None => Ok(&x.sheets.main[..0]),
        Some(Way::Entry(next, key)) => {
            push_key(work, x, trail.count, key);
            *trail = trail.with_entry();
            resolve_name_inner(work, trail, x, &next)
        }
        Some(Way::Offset(next)) => resolve_absolute_name(work, trail, x, &next),
    }
}

// The name of the entry at an offset of a section.
#[cycle(referred_name_resolve_absolute_name_resolve_name_inner)]
pub fn resolve_absolute_name<'a>(
    work: &mut [u8],
    trail: &mut Trail,
    x: &Tables<'a>,
    at: &OffsetAt,
) -> Result<&'a [u8], Refusal>
    requires search_in { SearchIn x.now.sheets.main.now x.now.sheets.supplementary.now work.old x.now trail.old.count }
    requires aims { Aims x.now.sheets.main.now x.now.sheets.supplementary.now at.now }
    ensures { let main = x.now.sheets.main.now in let supplementary = x.now.sheets.supplementary.now in
        Gives (resolve_absolute_name at.now.left (dwarf_of main supplementary) (search_source at.now.input)
        (search_source at.now.key.source) at.now.key.offset) main supplementary
        x.now work.old trail.old.count trail.old.reads work.new trail.new.count trail.new.reads
        (status_of result) (bytes_of result) }
{
    if is_visited(work, x, trail.count, at.key) {
        return Ok(&x.sheets.main[..0]);
    }
    let found = x
        .index(at.input)
        .target_at(x.sheets.of(at.input), work, at.key.offset)?;
    push_key(work, x, trail.count, at.key);
    let Some(entry) = found else {
        *trail = trail.with_target();
        return Ok(&x.sheets.main[..0]);
    };
    *trail = trail.with_entry();
    let next = at.to_entry(entry);
    resolve_name_inner(work, trail, x, &next)
}

// An entry of the main sheet, where a search starts.
pub fn start_at(entry: EntryPlace) -> EntryAt
    ensures { result ≡ start_at entry }
{
    EntryAt {
        input: DebugSource::Main,
        source: DebugSource::Main,
        entry,
        left: CHAIN_LIMIT,
    }
}

// The name of an entry of the main sheet, and how many entries were read for it.
// Stays apart from resolve_reference_name_counted: what the two share is a trail, made and read in a line each, and each has a search of its own.
pub fn resolve_name_counted<'a>(
    work: &mut [u8],
    x: Tables<'a>,
    entry: EntryPlace,
) -> Counted<Result<&'a [u8], Refusal>>
    requires search_in { SearchIn x.sheets.main.now x.sheets.supplementary.now work.old x 0 }
    requires entry_known { EntryKnown x.sheets.main.now entry.unit entry.place }
    ensures resolved { let main = x.entry.sheets.main.now in let supplementary = x.entry.sheets.supplementary.now in
        Resolved main supplementary x.entry work.old work.new
        (resolve_name (dwarf_of main supplementary) (unit_here main entry.unit) (entry_here main entry.place))
        (status_of result.answer) (bytes_of result.answer) }
    ensures reads_after { let main = x.entry.sheets.main.now in let supplementary = x.entry.sheets.supplementary.now in
        result.reads ≡ name_reads (dwarf_of main supplementary) (unit_here main entry.unit) (entry_here main entry.place) }
    ensures reads_within { ReadsWithin (dwarf_of x.entry.sheets.main.now x.entry.sheets.supplementary.now) result.reads }
{
    let mut trail = Trail::start();
    let answer = resolve_name_inner(work, &mut trail, &x, &start_at(entry));
    Counted {
        answer,
        reads: trail.reads,
    }
}

// The name of such an entry.
pub fn resolve_name<'a>(
    work: &mut [u8],
    x: Tables<'a>,
    entry: EntryPlace,
) -> Result<&'a [u8], Refusal>
    requires search_in { SearchIn x.sheets.main.now x.sheets.supplementary.now work.old x 0 }
    requires entry_known { EntryKnown x.sheets.main.now entry.unit entry.place }
    ensures { let main = x.entry.sheets.main.now in let supplementary = x.entry.sheets.supplementary.now in
        Resolved main supplementary x.entry work.old work.new
        (resolve_name (dwarf_of main supplementary) (unit_here main entry.unit) (entry_here main entry.place))
        (status_of result) (bytes_of result) }
{
    resolve_name_counted(work, x, entry).answer
}
