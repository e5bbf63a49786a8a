// The field cursor: what stands at a place of a byte string.
ghost use Rattle.std.specs.Prelude.{◌≡◌, ◌+◌, ◌≤◌, length, take, drop};
ghost use Rattle.tlv.specs.Cursor.{field_from};

use crate::bytes::Number;
use crate::tags::FIELD_HEAD;

// A whole field: its payload is the `len` bytes from `start` on, and `next` is past it.
// Stays a start and a length, no slice: of spans of files and directories those are made that are kept as numbers (files' `Span`).
#[derive(Clone, Copy, Debug)]
pub struct FieldSpan {
    pub tag: u8,
    pub start: usize,
    pub len: usize,
    pub next: usize,
}

impl FieldSpan {
    // Its payload, in the bytes that it stands in.
    // Stays beside files' `Span::of`: a walk cuts the payload of the field that it has; a Span is made of it only where a place is kept.
    pub fn payload(self, s: &[u8]) -> &[u8]
        requires { self.start + self.len ≤ length s.now }
        ensures { result.now ≡ take self.len (drop self.start s.now) }
    {
        &s[self.start..self.start + self.len]
    }
}

// The field at a place; none at the end, nor where a field runs past it.
// Stays a step that loops take. An iterator was tried on one walk: three lines shorter, but with one type more and two facts more in the invariant.
pub fn next_field(s: &[u8], p: usize) -> Option<FieldSpan>
    ensures { result ≡ field_from s.now p }
{
    if s.len() <= p {
        return None;
    }
    if s.len() - p < FIELD_HEAD {
        return None;
    }
    let start = p + FIELD_HEAD;
    let len = u16::read(s, p + 1) as usize;
    if s.len() - start < len {
        return None;
    }
    Some(FieldSpan {
        tag: s[p],
        start,
        len,
        next: start + len,
    })
}
