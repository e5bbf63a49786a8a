// Whether what is laid into the records passes the largest place, at which a place stays.
ghost use Rattle.std.specs.Prelude.{◌≡◌, ◌^◌, ◌≤◌, ◌<◌};
ghost use Rattle.dies.specs.Past.{is_past, node_size};

use buffers::output::{TRAY_NODE, TRAY_RANGE, TRAY_SITE};
use tlv::tags::FIELD_HEAD;

// The fewest bytes of a node's, a range's and a call site's field in the records: those of one with no name.
const NODE_LEAST: usize = FIELD_HEAD + TRAY_NODE as usize;

const RANGE_LEAST: usize = FIELD_HEAD + TRAY_RANGE as usize;

pub const SITE_LEAST: usize = FIELD_HEAD + TRAY_SITE as usize;

// Whether so many bytes from a place on do.
pub fn is_past(at: usize, size: usize) -> bool
    ensures { result ≡ is_past at size }
{
    usize::MAX - at < size
}

// Whether a node does whose name has so many bytes, with so many ranges, behind so many nodes; before the first stands the root, with the function's name.
pub fn node_past(at: usize, nodes: usize, name: usize, inlined: usize, ranges: usize) -> bool
    requires { (name < 2 ^ 16) × (inlined < 2 ^ 16) × (ranges ≤ 2 ^ 32) }
    ensures { result ≡ is_past at (node_size nodes name inlined ranges) }
{
    let own = NODE_LEAST + inlined + RANGE_LEAST * ranges;
    if nodes == 0 {
        return is_past(at, NODE_LEAST + RANGE_LEAST + name + own);
    }
    is_past(at, own)
}
