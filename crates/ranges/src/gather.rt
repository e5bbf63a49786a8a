// An entry's ranges that lie inside its parent's: from its fields 19, or from its list.
ghost use Rattle.std.specs.Prelude.{◌≡◌, ◌+◌, ◌*◌, ◌/◌, ◌≤◌, ◌<◌, length};
ghost use Rattle.tlv.specs.Checked.{Placed};
ghost use Rattle.rnglists.specs.Room.{range_least};
ghost use Rattle.rnglists.specs.Sizes.{width_of};
ghost use Rattle.ranges.specs.RangeTable.{range_fields, PutFit, GatheredFit, GatheredList, range_record};

use crate::ranges::{RANGE_RECORD, RangeNest, RangeTable};
use access::access::next_own;
use buffers::table::put_range_at;
use rnglists::lists::{ListField, RangeLists};
use tlv::model::AddressRange;
use tlv::refusal::Refusal;
use tlv::tags::RANGE_TAG;

// Adds a range behind the n at the nest's place, if it is nonempty and lies inside one of its parent's.
fn put_fitting(work: &mut [u8], nest: RangeNest, n: usize, range: AddressRange) -> usize
    requires { nest.to + n * range_record + range_record ≤ length work.old }
    ensures { PutFit work.old work.new nest.parent.base nest.parent.count nest.to n range result }
{
    let parent = RangeTable {
        work,
        stored: nest.parent,
    };
    if range.is_empty() || !parent.lies_in(range) {
        return n;
    }
    put_range_at(work, nest.to + n * RANGE_RECORD, range);
    n + 1
}

// The ranges of the entry whose field ends at `at` that are nonempty and lie inside one of its parent's, at the nest's place as they come.
// Stays a count, as gather_list: the nest says where the ranges begin, and keeps saying it.
// Stays a clause, as in coalesce_ranges, field_ranges and inline_ranges: it bounds the lent work slice, which is written, so no value holds it.
pub fn gather_ranges(s: &[u8], at: usize, work: &mut [u8], nest: RangeNest) -> usize
    requires placed { Placed s.now at }
    requires fields_fit { nest.to + range_record * length (range_fields s.now at) ≤ length work.old }
    ensures { GatheredFit s.now at work.old work.new nest.parent.base nest.parent.count nest.to result }
{
    let mut p = at;
    let mut n: usize = 0;
    // Stays a loop over fields: next_field says why; what is counted is what was found.
    while let Some(field) = next_own(s, p, RANGE_TAG) {
        n = put_fitting(work, nest, n, AddressRange::read(s, field.start));
        p = field.next;
    }
    n
}

// The ranges of a list that are nonempty and lie inside one of its parent's, at the nest's place as they come.
// Stays beside subprograms' import_list: there a list's fault ends the ranges with a warning, here it is handed on.
pub fn gather_list(
    lists: RangeLists,
    list: ListField,
    work: &mut [u8],
    nest: RangeNest,
) -> Result<usize, Refusal>
    requires { nest.to + range_record * (length lists.lists.now / range_least) ≤ length work.old }
    ensures { GatheredList lists.entry.lists.now lists.entry.addresses.now list.addresses (width_of list.size)
        list.offset list.base work.old work.new nest.parent.base nest.parent.count nest.to result }
{
    let mut at = list.offset as usize;
    let mut from = list.base;
    let mut n: usize = 0;
    // Stays a loop: each entry's own length moves the place; what is counted is what was found.
    while let Some(found) = lists.next_range(list.addresses, list.size, at, from)? {
        n = put_fitting(work, nest, n, found.range);
        at = found.next;
        from = found.base;
    }
    Ok(n)
}
