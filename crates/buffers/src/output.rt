// Writing into the trays: each function writes what fits and counts on, and returns the place behind what it wrote.
// Stays a slice and a place, here and in all that write: one lent struct with `put` as its method was tried, and a row took 4.2 nanoseconds for today's 3.6.
ghost use Rattle.std.specs.Prelude.{◌≡◌, cond, [], ◌∷◌, ◌++◌, ◌+◌, ◌<◌, ◌≤◌, leb, length};
ghost use Rattle.tlv.specs.Tags.{tray_file_tag, tray_function_tag, tray_node_tag, tray_range_tag, tray_row_tag, tray_site_tag, tray_warning_tag};
ghost use Rattle.tlv.specs.Lists.{is_empty};
ghost use Rattle.tlv.specs.Bytes.{bytes_of};
ghost use Rattle.tlv.specs.Fields.{encode};
ghost use Rattle.buffers.specs.Output.{function_payload, row_payload, node_payload, range_payload, site_payload, file_payload};
ghost use Rattle.buffers.specs.Output.{malformed_ranges, warning_payload};
ghost use Rattle.buffers.specs.Buffer.{moved, Put};
ghost use Rattle.buffers.specs.WarningKinds.{number_of};

use crate::numbers::put;
use crate::warning::WarningKind;
use tlv::model::{AddressRange, FileIndex, LineEntry};
use tlv::tags::{
    TRAY_FILE_TAG, TRAY_FUNCTION_TAG, TRAY_NODE_TAG, TRAY_RANGE_TAG, TRAY_ROW_TAG, TRAY_SITE_TAG,
    TRAY_WARNING_TAG,
};

// How long the payloads of the records tray's fields are: a row's and a range's just so, the others' at the least, since a name or a pattern follows.
pub const TRAY_FUNCTION: u16 = 16;

// Where a row's column stands in its payload, behind which the payload ends.
pub const TRAY_COLUMN: u16 = 16;

pub const TRAY_ROW: u16 = TRAY_COLUMN + 2;

pub const TRAY_NODE: u16 = 10;

pub const TRAY_RANGE: u16 = 16;

pub const TRAY_SITE: u16 = 9;

// The depth of a tray's deepest node, and how many nodes can be open at once.
pub const DEEPEST_NODE: usize = 256;

// A byte. Past the tray's end nothing is laid, and the place goes on.
// Stays beside `put`, which calls it, through put_each, for a number that meets the end.
pub fn put_u8(buffer: &mut [u8], at: usize, b: u8) -> usize
    ensures { Put at (b ∷ []) buffer.old buffer.new result }
{
    if at < buffer.len() {
        buffer[at] = b;
    }
    at.saturating_add(1)
}

// All of `size` bytes from a place on lie within the tray.
pub(crate) fn has_room(buffer: &[u8], at: usize, size: usize) -> bool
    ensures { result ≡ leb (at + size) (length buffer.now) }
{
    if at <= buffer.len() {
        return size <= buffer.len() - at;
    }
    false
}

// The place n further on, or the largest.
pub(crate) fn advance(at: usize, n: usize) -> usize
    ensures { result ≡ moved at n }
{
    at.saturating_add(n)
}

// Bytes that all fit: no test in the loop.
// Stays a loop: `copy_from_slice` calls C's `memmove`, a name that the library for C asks for nowhere.
fn lay_bytes(buffer: &mut [u8], at: usize, bs: &[u8]) -> usize
    requires { at + length bs.now ≤ length buffer.old }
    ensures { Put at bs.now buffer.old buffer.new result }
{
    for i in 0..bs.len() {
        buffer[at + i] = bs[i];
    }
    at + bs.len()
}

// Bytes that may meet the tray's end.
pub(crate) fn put_each(buffer: &mut [u8], at: usize, bs: &[u8]) -> usize
    ensures { Put at bs.now buffer.old buffer.new result }
{
    let mut p = at;
    for &b in bs {
        p = put_u8(buffer, p, b);
    }
    p
}

pub fn put_bytes(buffer: &mut [u8], at: usize, bs: &[u8]) -> usize
    ensures { Put at bs.now buffer.old buffer.new result }
{
    if has_room(buffer, at, bs.len()) {
        return lay_bytes(buffer, at, bs);
    }
    if buffer.len() <= at {
        return advance(at, bs.len());
    }
    put_each(buffer, at, bs)
}

// What every field begins with: its tag and the length of its payload.
fn put_head(buffer: &mut [u8], at: usize, tag: u8, size: u16) -> usize
    ensures { Put at ((tag ∷ []) ++ bytes_of 2 size) buffer.old buffer.new result }
{
    let p = put_u8(buffer, at, tag);
    put(buffer, p, size)
}

// 40 file: directory length 2 bytes, directory, basename.
// Stays a clause, as those below, that a text is short: each field has other bytes before its text, so the five numbers differ.
pub fn put_file(buffer: &mut [u8], at: usize, directory: &[u8], basename: &[u8]) -> usize
    requires { 2 + length directory.now + length basename.now < 65536 }
    ensures { Put at (encode tray_file_tag (file_payload (record { directory = directory.now; basename = basename.now })))
        buffer.old buffer.new result }
{
    let headed = put_head(
        buffer,
        at,
        TRAY_FILE_TAG,
        (2 + directory.len() + basename.len()) as u16,
    );
    let counted = put(buffer, headed, directory.len() as u16);
    let placed = put_bytes(buffer, counted, directory);
    put_bytes(buffer, placed, basename)
}

// 41 function: start, end, name.
pub fn put_function(buffer: &mut [u8], at: usize, range: AddressRange, name: &[u8]) -> usize
    requires { 16 + length name.now < 65536 }
    ensures { Put at (encode tray_function_tag (function_payload range name.now)) buffer.old buffer.new result }
{
    let size = TRAY_FUNCTION + name.len() as u16;
    let headed = put_head(buffer, at, TRAY_FUNCTION_TAG, size);
    let started = put(buffer, headed, range.start);
    let ended = put(buffer, started, range.end);
    put_bytes(buffer, ended, name)
}

// 42 row: address, file 4 bytes, line 4 bytes, column 2 bytes.
pub fn put_line(buffer: &mut [u8], at: usize, line: LineEntry) -> usize
    ensures { Put at (encode tray_row_tag (row_payload line)) buffer.old buffer.new result }
{
    let file = line.file;
    let headed = put_head(buffer, at, TRAY_ROW_TAG, TRAY_ROW);
    let addressed = put(buffer, headed, line.address);
    let filed = put(buffer, addressed, file.0);
    let lined = put(buffer, filed, line.line);
    put(buffer, lined, line.column)
}

// 43 node: depth 2, call file 4, call line 4, name. Its ranges follow in fields of their own.
pub fn put_node(
    buffer: &mut [u8],
    at: usize,
    depth: u16,
    call_file: FileIndex,
    call_line: u32,
    name: &[u8],
) -> usize
    requires { 10 + length name.now < 65536 }
    ensures { Put at (encode tray_node_tag (node_payload (record
        { depth = depth; call_file = call_file; call_line = call_line; name = name.now; ranges = [] }))) buffer.old
        buffer.new
        result }
{
    let headed = put_head(buffer, at, TRAY_NODE_TAG, TRAY_NODE + name.len() as u16);
    let deep = put(buffer, headed, depth);
    let filed = put(buffer, deep, call_file.0);
    let lined = put(buffer, filed, call_line);
    put_bytes(buffer, lined, name)
}

// 44 range: start, end.
pub fn put_range(buffer: &mut [u8], at: usize, range: AddressRange) -> usize
    ensures { Put at (encode tray_range_tag (range_payload range)) buffer.old buffer.new result }
{
    let headed = put_head(buffer, at, TRAY_RANGE_TAG, TRAY_RANGE);
    let started = put(buffer, headed, range.start);
    put(buffer, started, range.end)
}

// How many patterns a call site has: none where it is empty.
fn pattern_count(pattern: &[u8]) -> u8
    ensures { result ≡ cond (is_empty pattern.now) 0 1 }
{
    u8::from(!pattern.is_empty())
}

// 45 call site: return offset, pattern count 1 byte, pattern.
pub fn put_call_site(buffer: &mut [u8], at: usize, return_offset: u64, pattern: &[u8]) -> usize
    requires { 9 + length pattern.now < 65536 }
    ensures { Put at (encode tray_site_tag (site_payload (record { return_offset = return_offset; pattern = pattern.now })))
        buffer.old buffer.new result }
{
    let count = pattern_count(pattern);
    let headed = put_head(buffer, at, TRAY_SITE_TAG, TRAY_SITE + pattern.len() as u16);
    let placed = put(buffer, headed, return_offset);
    let counted = put_u8(buffer, placed, count);
    put_bytes(buffer, counted, pattern)
}

// The byte of a warning's kind.
fn put_kind(buffer: &mut [u8], at: usize, kind: WarningKind) -> usize
    ensures { Put at (number_of kind ∷ []) buffer.old buffer.new result }
{
    put_u8(buffer, at, kind.number())
}

// 46 warning of two numbers: kind 1 byte, the numbers.
// Stays with a byte for the kind: any may be written, and callers say theirs by `WarningKind::number`.
pub fn put_warning(buffer: &mut [u8], at: usize, kind: u8, first: u64, second: u64) -> usize
    ensures { Put at (encode tray_warning_tag ((kind ∷ []) ++ bytes_of 8 first ++ bytes_of 8 second)) buffer.old buffer.new result }
{
    let headed = put_head(buffer, at, TRAY_WARNING_TAG, 17);
    let kinded = put_u8(buffer, headed, kind);
    let begun = put(buffer, kinded, first);
    put(buffer, begun, second)
}

// The kind of a warning of malformed ranges.
fn malformed_kind(stopped: bool) -> WarningKind
    ensures { number_of result ≡ cond stopped 2 1 }
{
    if stopped {
        WarningKind::StoppedRanges
    } else {
        WarningKind::MalformedRanges
    }
}

// 46 warning of malformed ranges: kind 1 byte, the reason.
// Stays with a bool for the kind: of the eleven kinds two have a reason, so a WarningKind would come with a clause that it is one of these.
pub fn put_malformed_ranges(buffer: &mut [u8], at: usize, stopped: bool, reason: &[u8]) -> usize
    requires { 1 + length reason.now < 65536 }
    ensures { Put at (encode tray_warning_tag (warning_payload (malformed_ranges stopped reason.now))) buffer.old
        buffer.new result }
{
    let kind = malformed_kind(stopped);
    let headed = put_head(buffer, at, TRAY_WARNING_TAG, (1 + reason.len()) as u16);
    let kinded = put_kind(buffer, headed, kind);
    put_bytes(buffer, kinded, reason)
}
