// A unit's map from DWARF's file numbers to the table's (the Rust's FileIndices).
ghost use Rattle.std.specs.Prelude.{◌≡◌, ◌+◌, ◌*◌, ◌≤◌, length};
ghost use Rattle.lines.specs.Files.{get};
ghost use Rattle.files.specs.Indices.{indices_in, number_of, PutIndex, Inserted, index_record};

use buffers::numbers::{put_option, read_option};
use buffers::table::Stored;
use tlv::model::FileIndex;

// Bytes of a record of the map.
pub const INDEX_RECORD: usize = 5;

// One of DWARF's own file numbers; not a number of the import's file table.
#[derive(Clone, Copy, Debug)]
pub struct FileNumber(pub u64);

// Writes a record of the map: the table's number of a file, if it has one.
pub fn put_index(work: &mut [u8], p: usize, index: Option<FileIndex>)
    requires { p + 5 ≤ length work.old }
    ensures { PutIndex work.old work.new p (number_of index) }
{
    put_option(work, p, index.map(|number| number.0));
}

// The table's number for one of DWARF's.
pub fn get_index(work: &[u8], indices: Stored<FileIndex>, number: FileNumber) -> Option<FileIndex>
    requires { indices.base + indices.count * index_record ≤ length work.now }
    ensures { number_of result ≡ get (indices_in work.now indices) number.0 }
{
    if (indices.count as u64) <= number.0 {
        return None;
    }
    let p = indices.base + number.0 as usize * INDEX_RECORD;
    let number = read_option(work, p)?;
    Some(FileIndex(number))
}

// Gives one of DWARF's numbers a number of the table; one past the map stays without.
pub fn insert_index(
    work: &mut [u8],
    indices: Stored<FileIndex>,
    number: FileNumber,
    index: FileIndex,
)
    requires { indices.base + indices.count * index_record ≤ length work.old }
    ensures { Inserted work.old work.new indices number index }
{
    if number.0 < indices.count as u64 {
        let p = indices.base + number.0 as usize * INDEX_RECORD;
        put_index(work, p, Some(index));
    }
}
