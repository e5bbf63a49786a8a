// The file of a row.
ghost use Rattle.std.specs.Prelude.{◌≡◌};
ghost use Rattle.collect.specs.Converts.{zero_of, listed_of, sought_of};

use crate::convert::Conversion;
use buffers::table::Stored;
use files::index::FileNumber;
use files::spans::Span;
use tlv::fields::FieldSpan;
use tlv::model::FileIndex;

// What a header has at a file number that the unit's map has no number for: nothing, a file with no path, or file 0 before version 5.
// Stays an enum: each of the three is answered in a way of its own.
#[derive(Clone, Copy, Debug)]
pub enum SoughtFile {
    Missing,
    Unnamed,
    Zero(Span),
}

// The file 0 before version 5, where its field says it.
fn zero_file(zero: Option<FieldSpan>) -> SoughtFile
    ensures { result ≡ zero_of zero }
{
    zero.map_or(SoughtFile::Missing, |field| {
        SoughtFile::Zero(Span::from(field))
    })
}

// A file of a number of the map, which has no path.
fn listed_file(indices: Stored<FileIndex>, file: FileNumber) -> SoughtFile
    ensures { result ≡ listed_of indices.count file.0 }
{
    if file.0 < indices.count as u64 {
        return SoughtFile::Unnamed;
    }
    SoughtFile::Missing
}

impl Conversion<'_> {
    // The header's file of a number that the unit's map has no number for.
    pub fn sought_file(self, file: FileNumber) -> SoughtFile
        ensures { result ≡ sought_of self.entry file.0 }
    {
        if self.unit.counts_from_one() && file.0 == 0 {
            return zero_file(self.zero);
        }
        listed_file(self.indices, file)
    }
}
