// What stands in a sheet: the next field of a tag, the value of an entry's attribute, and the place of a unit by its number.
ghost use Rattle.std.specs.Prelude.{◌≡◌, Some, true, map, ◌+◌, ◌≤◌, length, take, drop};
ghost use Rattle.tlv.specs.Tags.{attribute_tag, row_tag};
ghost use Rattle.tlv.specs.Lists.{first, at};
ghost use Rattle.tlv.specs.Fields.{fields, payloads};
ghost use Rattle.tlv.specs.Grammar.{attribute_shaped};
ghost use Rattle.tlv.specs.Model.{attribute_of};
ghost use Rattle.tlv.specs.Checked.{Placed};
ghost use Rattle.access.specs.Places.{own_fields, unit_places, lists_from};
ghost use Rattle.access.specs.Access.{NextOwn, is_named, number_value, value_of, meaning_of, Says, place_of};

use tlv::bytes::Number;
use tlv::fields::{FieldSpan, next_field};
use tlv::kinds::{
    ADDRESS_KIND, FAILED_KIND, FILE_KIND, LINE_OFFSET_KIND, SECTION_OFFSET_KIND,
    SECTION_REFERENCE_KIND, SUPPLEMENTARY_REFERENCE_KIND, TEXT_KIND, UNIT_REFERENCE_KIND,
    UNSIGNED_KIND,
};
use tlv::shapes::{ATTRIBUTE_KIND, ATTRIBUTE_VALUE, ROW_FIELD, ROW_WHOLE};
use tlv::tags::{ATTRIBUTE_TAG, ENTRY_TAG, FIELD_HEAD, LIST_TAG, ROW_TAG, UNIT_TAG};

// The next field of a tag, from a place on, before the next entry or unit, or before the first row where `rows_end` says so.
// Stays with a bool: `Placed` is asked only of a search that ends at rows; with a closure that clause would speak of all its answers.
fn next_of(s: &[u8], p: usize, tag: u8, rows_end: bool) -> Option<FieldSpan>
    requires { rows_end ≡ true → Placed s.now p }
    ensures { NextOwn s.now p tag result }
{
    let mut at = p;
    // Stays a loop over fields: next_field says why.
    while let Some(field) = next_field(s, at) {
        if field.tag == ENTRY_TAG || field.tag == UNIT_TAG {
            return None;
        }
        if field.tag == tag {
            return Some(field);
        }
        if rows_end && field.tag == ROW_TAG {
            return None;
        }
        at = field.next;
    }
    None
}

// The next field of a tag, from a place on, before the next entry or unit.
pub fn next_own(s: &[u8], p: usize, tag: u8) -> Option<FieldSpan>
    ensures { NextOwn s.now p tag result }
{
    next_of(s, p, tag, false)
}

// The next field of a tag among a unit's own fields, from a place on. Rows come last of them, so the search ends at the first row, unless rows are looked for.
pub fn next_before_rows(s: &[u8], p: usize, tag: u8) -> Option<FieldSpan>
    requires { Placed s.now p }
    ensures { NextOwn s.now p tag result }
{
    next_of(s, p, tag, true)
}

// The next row among a unit's own fields, from a place on. All rows have one length, so the place behind one is known before its length is read.
pub fn next_row(s: &[u8], p: usize) -> Option<FieldSpan>
    requires { Placed s.now p }
    ensures { NextOwn s.now p row_tag result }
{
    if p < s.len() && s[p] == ROW_TAG {
        return Some(FieldSpan {
            tag: ROW_TAG,
            start: p + FIELD_HEAD,
            len: ROW_FIELD,
            next: p + ROW_WHOLE,
        });
    }
    next_own(s, p, ROW_TAG)
}

// The value of an attribute.
// Stays an enum and no Option: the failed kind is one of the sheet's ten and comes from a field; where no attribute is, the answer is None.
#[derive(Clone, Copy, Debug)]
pub enum Value {
    Unsigned(u64),
    FileNumber(u64),
    // Stays a start and a length: a slice would give the type a lifetime, for which nine of its ten kinds have no use.
    Text { start: usize, len: usize },
    UnitReference(u64),
    SectionReference(u64),
    SupplementaryReference(u64),
    SectionOffset(u64),
    LineOffset(u64),
    Address(u64),
    Failed,
}

// The value of an attribute of a kind whose values are numbers.
#[tactic(auto, unfolding(crate::specs::Access::number_value))]
fn number_value(kind: u8, n: u64) -> Value
    ensures { result ≡ number_value kind n }
{
    // Stays a match: the kinds are the sheet's own table.
    match kind {
        UNSIGNED_KIND => Value::Unsigned(n),
        FILE_KIND => Value::FileNumber(n),
        UNIT_REFERENCE_KIND => Value::UnitReference(n),
        SECTION_REFERENCE_KIND => Value::SectionReference(n),
        SUPPLEMENTARY_REFERENCE_KIND => Value::SupplementaryReference(n),
        SECTION_OFFSET_KIND => Value::SectionOffset(n),
        LINE_OFFSET_KIND => Value::LineOffset(n),
        ADDRESS_KIND => Value::Address(n),
        _ => Value::Failed,
    }
}

// The value of the attribute that a field is.
fn value_at(s: &[u8], field: FieldSpan) -> Value
    requires lies_within { field.start + field.len ≤ length s.now }
    requires shaped { attribute_shaped (take field.len (drop field.start s.now)) ≡ true }
    ensures { Says s.now (Some result) (value_of (attribute_of (take field.len (drop field.start s.now)))) }
{
    let kind = u8::read(s, field.start + ATTRIBUTE_KIND);
    let at = field.start + ATTRIBUTE_VALUE;
    let left = field.len - ATTRIBUTE_VALUE;
    if kind == TEXT_KIND {
        return Value::Text {
            start: at,
            len: left,
        };
    }
    if kind == FAILED_KIND {
        return Value::Failed;
    }
    number_value(kind, u64::read(s, at))
}

// The value of the first attribute of a name of the entry whose field ends at p. Attributes come first of its fields, so the search ends at any other.
pub fn attribute(s: &[u8], p: usize, name: u16) -> Option<Value>
    requires { Placed s.now p }
    ensures { Says s.now result (meaning_of
        (first (is_named name) (map attribute_of (payloads attribute_tag (own_fields (fields (drop p s.now))))))) }
{
    let mut at = p;
    // Stays a loop over fields: next_field says why.
    while let Some(field) = next_field(s, at) {
        if field.tag != ATTRIBUTE_TAG {
            return None;
        }
        if u16::read(s, field.start) == name {
            return Some(value_at(s, field));
        }
        at = field.next;
    }
    None
}

// The place of the unit of a number, from 0.
pub fn unit_by_ordinal(s: &[u8], ordinal: u64) -> Option<usize>
    ensures { place_of result ≡ at (unit_places 0 (fields s.now)) ordinal }
{
    let mut p: usize = 0;
    let mut left = ordinal;
    // Stays a loop over fields: next_field says why.
    while let Some(field) = next_field(s, p) {
        if field.tag == UNIT_TAG {
            if left == 0 {
                return Some(p);
            }
            left -= 1;
        }
        p = field.next;
    }
    None
}

// How many range lists, fields 1f, stand from a place on before the next unit.
pub fn list_count(s: &[u8], p: usize) -> usize
    ensures { result ≡ lists_from s.now p }
{
    let mut at = p;
    let mut n: usize = 0;
    // Stays a loop over fields: next_field says why.
    while let Some(field) = next_field(s, at) {
        if field.tag == UNIT_TAG {
            return n;
        }
        if field.tag == LIST_TAG {
            n += 1;
        }
        at = field.next;
    }
    n
}
