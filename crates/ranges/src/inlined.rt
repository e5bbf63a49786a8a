// The ranges of an inlined entry in the work slice: of its fields 19, or of its range list.
ghost use Rattle.std.specs.Prelude.{◌≡◌, false, ◌+◌, ◌*◌, ◌/◌, ◌≤◌, length};
ghost use Rattle.tlv.specs.Tags.{list_tag};
ghost use Rattle.tlv.specs.Checked.{Placed};
ghost use Rattle.access.specs.Access.{NextOwn};
ghost use Rattle.rnglists.specs.Room.{range_least};
ghost use Rattle.rnglists.specs.Sizes.{width_of};
ghost use Rattle.ranges.specs.RangeTable.{range_fields, own_lists, list_at, read_at, Merges, MergesList, MergesFields, range_record};

use crate::gather::gather_list;
use crate::ranges::{RangeNest, coalesce_at, coalesce_ranges};
use access::access::next_own;
use buffers::table::Stored;
use rnglists::lists::{ListField, RangeLists};
use tlv::fields::FieldSpan;
use tlv::refusal::Refusal;
use tlv::tags::{FAILURE_TAG, LIST_TAG};

// Of a list, the ranges that are nonempty and lie inside one of its parent's, merged at the nest's place.
// Stays with work and nest apart, as below, in gather.rt and coalesce_ranges: the slice is lent to be written, and put_fitting takes it beside other things.
fn list_ranges(
    lists: RangeLists,
    list: ListField,
    work: &mut [u8],
    nest: RangeNest,
) -> Result<usize, Refusal>
    requires { nest.to + range_record * (length lists.lists.now / range_least) ≤ length work.old }
    ensures { MergesList (list_at lists.entry.lists.now lists.entry.addresses.now list.addresses (width_of list.size) list.offset list.base)
        lists.entry.lists.now work.old work.new nest.parent.base nest.parent.count nest.to result }
{
    let n = gather_list(lists, list, work, nest)?;
    Ok(coalesce_at(work, Stored::new(nest.to, n)))
}

// The same of the fields 19 of the entry whose field ends at `at`; one with a range failure is refused.
fn field_ranges(main: &[u8], at: usize, work: &mut [u8], nest: RangeNest) -> Result<usize, Refusal>
    requires placed { Placed main.now at }
    requires fields_fit { nest.to + range_record * length (range_fields main.now at) ≤ length work.old }
    ensures { MergesFields main.now at work.old work.new nest.parent.base nest.parent.count nest.to result }
{
    if next_own(main, at, FAILURE_TAG).is_some() {
        return Err(Refusal::Decoder);
    }
    Ok(coalesce_ranges(main, at, work, nest))
}

// The field 1f of the entry whose fields begin at a place; it is looked for only where the main sheet has one.
pub fn list_field(main: &[u8], with_lists: bool, at: usize) -> Option<FieldSpan>
    requires placed { Placed main.now at }
    requires listless { with_lists ≡ false → own_lists main.now at ≡ 0 }
    ensures { NextOwn main.now at list_tag result }
{
    if with_lists {
        return next_own(main, at, LIST_TAG);
    }
    None
}

// The same of the entry whose field ends at `at`, from its list where it has one. Where no entry of the sheet names a list none is looked for.
// Stays with the flag beside the lists: dies' UnitContext says why.
pub fn inline_ranges(
    main: &[u8],
    lists: RangeLists,
    work: &mut [u8],
    with_lists: bool,
    at: usize,
    nest: RangeNest,
) -> Result<usize, Refusal>
    requires placed { Placed main.now at }
    requires fields_fit { nest.to + range_record * length (range_fields main.now at) ≤ length work.old }
    requires lists_fit { 1 ≤ own_lists main.now at
        → nest.to + range_record * (length lists.lists.now / range_least) ≤ length work.old }
    requires lists_known { with_lists ≡ false → own_lists main.now at ≡ 0 }
    ensures { Merges (read_at lists.entry.lists.now lists.entry.addresses.now main.now at) main.now lists.entry.lists.now at
        work.old work.new nest.parent.base nest.parent.count nest.to result }
{
    let Some(field) = list_field(main, with_lists, at) else {
        return field_ranges(main, at, work, nest);
    };
    let list = ListField::read(main, field.start);
    list_ranges(lists, list, work, nest)
}
