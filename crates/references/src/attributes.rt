// What is read of an entry: its references, its numbers, and its own name.
ghost use Rattle.std.specs.Prelude.{◌≡◌};
ghost use Rattle.tlv.specs.Refusals.{status_of};
ghost use Rattle.tlv.specs.Checked.{Placed};
ghost use Rattle.access.specs.Access.{Says, meaning_of};
ghost use Rattle.access.specs.Places.{entry_here};
ghost use Rattle.references.specs.Search.{attribute, unsigned_attribute, file_index_attribute};
ghost use Rattle.references.specs.Tables.{EntryKnown, reference_of, reference_in, number_given, file_number_in, line_number_in, NameRead, OwnNamed, bytes_of};

use access::access::Value;
use access::index::EntryPlace;
use tlv::constants::{DW_AT_LINKAGE_NAME, DW_AT_MIPS_LINKAGE_NAME, DW_AT_NAME};
use tlv::refusal::Refusal;
use tlv::tags::ENTRY_WHOLE;

// A reference to another entry.
#[derive(Clone, Copy, Debug)]
pub enum Reference {
    Unit(u64),
    Section(u64),
    Supplementary(u64),
}

// The value of the attribute of a name of an entry.
// Stays with sheet, entry and name apart, as those below: a struct of them would be made for each attribute that is asked for.
pub fn attribute_at(s: &[u8], entry: EntryPlace, name: u16) -> Option<Value>
    requires placed { Placed s.now 0 }
    requires entry_known { EntryKnown s.now entry.unit entry.place }
    ensures { Says s.now result (meaning_of (attribute (entry_here s.now entry.place) name)) }
{
    access::access::attribute(s, entry.place + ENTRY_WHOLE, name)
}

// The reference that a value is.
// Stays apart from file_number_in, line_number_in, dies' address_in and subprograms' sequence_in: each takes other kinds of a value.
fn reference_of(v: Option<Value>) -> Option<Reference>
    ensures { result ≡ reference_in v }
{
    match v {
        Some(Value::UnitReference(n)) => Some(Reference::Unit(n)),
        Some(Value::SectionReference(n)) => Some(Reference::Section(n)),
        Some(Value::SupplementaryReference(n)) => Some(Reference::Supplementary(n)),
        _ => None,
    }
}

// The reference that the attribute of a name of an entry is.
pub fn reference_at(s: &[u8], entry: EntryPlace, name: u16) -> Option<Reference>
    requires placed { Placed s.now 0 }
    requires entry_known { EntryKnown s.now entry.unit entry.place }
    ensures { result ≡ reference_of (attribute (entry_here s.now entry.place) name) }
{
    reference_of(attribute_at(s, entry, name))
}

// The file number that a value is.
fn file_number_in(v: Option<Value>) -> Option<u64>
    ensures { result ≡ file_number_in v }
{
    match v {
        Some(Value::Unsigned(n) | Value::FileNumber(n)) => Some(n),
        _ => None,
    }
}

// The line that a value is.
fn line_number_in(v: Option<Value>) -> Option<u64>
    ensures { result ≡ line_number_in v }
{
    match v {
        Some(Value::Unsigned(n)) => Some(n),
        _ => None,
    }
}

// The file number that the attribute of a name of an entry is.
pub fn file_index_attribute(s: &[u8], entry: EntryPlace, name: u16) -> Option<u64>
    requires placed { Placed s.now 0 }
    requires entry_known { EntryKnown s.now entry.unit entry.place }
    ensures { result ≡ number_given (file_index_attribute (entry_here s.now entry.place) name) }
{
    file_number_in(attribute_at(s, entry, name))
}

// The unsigned number that the attribute of a name of an entry is.
pub fn unsigned_attribute(s: &[u8], entry: EntryPlace, name: u16) -> Option<u64>
    requires placed { Placed s.now 0 }
    requires entry_known { EntryKnown s.now entry.unit entry.place }
    ensures { result ≡ number_given (unsigned_attribute (entry_here s.now entry.place) name) }
{
    line_number_in(attribute_at(s, entry, name))
}

// The name that an attribute of an entry is, empty where there is none.
// Stays an empty part, and no Option: the form that document 01 names.
fn name_at<'a>(s: &'a [u8], entry: EntryPlace, name: u16) -> Result<&'a [u8], Refusal>
    requires placed { Placed s.now 0 }
    requires entry_known { EntryKnown s.now entry.unit entry.place }
    ensures { NameRead s.now entry.place name (status_of result) (bytes_of result) }
{
    let Some(value) = attribute_at(s, entry, name) else {
        return Ok(&s[..0]);
    };
    match value {
        Value::Text { start, len } => Ok(&s[start..start + len]),
        _ => Err(Refusal::Decoder),
    }
}

// The name that an entry has itself: the first that is not empty.
// Stays three calls, the third the answer: a loop would need an invariant of the names that were empty, which the tests say one by one.
pub fn own_name<'a>(s: &'a [u8], entry: EntryPlace) -> Result<&'a [u8], Refusal>
    requires placed { Placed s.now 0 }
    requires entry_known { EntryKnown s.now entry.unit entry.place }
    ensures { OwnNamed s.now entry.place (status_of result) (bytes_of result) }
{
    let linkage = name_at(s, entry, DW_AT_LINKAGE_NAME)?;
    if !linkage.is_empty() {
        return Ok(linkage);
    }
    let mips = name_at(s, entry, DW_AT_MIPS_LINKAGE_NAME)?;
    if !mips.is_empty() {
        return Ok(mips);
    }
    name_at(s, entry, DW_AT_NAME)
}
