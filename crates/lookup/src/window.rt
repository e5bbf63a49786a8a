// The functions inside a window, and those that cross its edge, as 41 fields in a lent tray.
ghost use Rattle.std.specs.Prelude.{◌≡◌};
ghost use Rattle.lookup.specs.Window.{crosses, functions_inside, functions_crossing};
ghost use Rattle.lookup.specs.Walk.{Stands};
ghost use Rattle.lookup.specs.Answers.{list_given};
ghost use Rattle.lookup.specs.Listing.{LaysPassing, ListsPassing};

use crate::form::check_records;
use crate::lent::refused;
use buffers::output::put_bytes;
use tlv::fields::next_field;
use tlv::model::AddressRange;
use tlv::refusal::Refusal;
use tlv::tags::TRAY_FUNCTION_TAG;

// Whether a range shares an address with the window and reaches outside it: an empty window shares none.
fn crosses_edge(window: AddressRange, range: AddressRange) -> bool
    ensures { result ≡ crosses window range }
{
    window.start.max(range.start) < window.end.min(range.end) && !range.is_inside(window)
}

// The fields of the functions that are wanted, in tray order.
fn put_functions<F: Fn(AddressRange) -> bool>(s: &[u8], is_wanted: F, list: &mut [u8]) -> usize
    requires stands { Stands s.now 0 }
    requires callable { F.IsAlwaysCallable is_wanted }
    ensures { LaysPassing (F.post is_wanted) s.now list.old list.new result }
{
    let mut p = 0;
    let mut at = 0;
    // Stays a loop over fields: next_field says why.
    while let Some(field) = next_field(s, p) {
        if field.tag == TRAY_FUNCTION_TAG && is_wanted(AddressRange::read(field.payload(s), 0)) {
            at = put_bytes(list, at, &s[p..field.next]);
        }
        p = field.next;
    }
    at
}

fn list_functions<F: Fn(AddressRange) -> bool>(
    s: &[u8],
    is_wanted: F,
    list: &mut [u8],
) -> Result<usize, Refusal>
    requires { F.IsAlwaysCallable is_wanted }
    ensures { ListsPassing (F.post is_wanted) s.now list.old list.new result }
{
    if !check_records(s) {
        return refused(list, Refusal::MisshapenRecords);
    }
    let n = put_functions(s, is_wanted, list);
    if list.len() < n {
        return refused(list, Refusal::ShortRecords);
    }
    if n == 0 {
        return refused(list, Refusal::NoFunction);
    }
    Ok(n)
}

// The functions of which no address is outside the window from `start` to below `end`.
// Stays two numbers, as the one below: its callers have two, from C and from a query, and each would make the range that is made here.
pub fn functions_inside(s: &[u8], start: u64, end: u64, list: &mut [u8]) -> Result<usize, Refusal>
    ensures { list_given result list.new ≡ functions_inside s.now (record { start = start; end = end }) list.old }
{
    list_functions(
        s,
        |range| range.is_inside(AddressRange { start, end }),
        list,
    )
}

// The functions that share an address with the window and reach outside it.
pub fn functions_crossing(s: &[u8], start: u64, end: u64, list: &mut [u8]) -> Result<usize, Refusal>
    ensures { list_given result list.new ≡ functions_crossing s.now (record { start = start; end = end }) list.old }
{
    list_functions(
        s,
        |range| crosses_edge(AddressRange { start, end }, range),
        list,
    )
}
