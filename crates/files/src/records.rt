// Files as records of the work slice, and as the pieces that they were made of.
ghost use Rattle.std.specs.Prelude.{◌≡◌, ◌+◌, ◌≤◌, ◌<◌, ◌^◌, length};
ghost use Rattle.buffers.specs.Table.{chunk};
ghost use Rattle.lines.specs.Files.{same_file};
ghost use Rattle.files.specs.Pieces.{file_in, PiecesIn, PiecesSmall};
ghost use Rattle.files.specs.Hash.{hash_of};
ghost use Rattle.files.specs.Store.{file_body, pieces_of, source_of, stored_file, StoredAt, PutPieces, PutFile};

use crate::joined::is_joined;
use crate::pieces::FilePieces;
use crate::sheets::Sheets;
use crate::spans::{SPAN_RECORD, Span};
use buffers::numbers::Written;
use tlv::bytes::Number;
use tlv::model::DebugSource;

// Bytes of a file's four spans in its record, and where its source, its hash and its link stand behind them.
const SOURCE_AT: usize = 4 * SPAN_RECORD;

const HASH_AT: usize = SOURCE_AT + 1;

pub const LINK_AT: usize = HASH_AT + 4;

// The source of the record at a place.
// Stays a clause, as those below: it is of the place of one record, and a type of the slice and that place would be made anew for each.
fn source_at(work: &[u8], p: usize) -> DebugSource
    requires { p + file_body ≤ length work.now }
    ensures { result ≡ source_of (chunk work.now p file_body) }
{
    DebugSource::from(u8::read(work, p + SOURCE_AT))
}

impl FilePieces {
    // The pieces of the record at a place.
    fn read(work: &[u8], p: usize) -> FilePieces
        requires { p + file_body ≤ length work.now }
        ensures { result ≡ pieces_of (chunk work.now p file_body) }
    {
        FilePieces {
            compilation: Span::read(work, p),
            directory: Span::read(work, p + SPAN_RECORD),
            own: Span::read(work, p + 2 * SPAN_RECORD),
            base: Span::read(work, p + 3 * SPAN_RECORD),
        }
    }

    // Writes the pieces of a record.
    fn write(self, work: &mut [u8], at: usize)
        requires record_fits { at + file_body ≤ length work.old }
        requires pieces_small { PiecesSmall self }
        ensures { PutPieces work.old work.new at self }
    {
        self.compilation.write(work, at);
        self.directory.write(work, at + SPAN_RECORD);
        self.own.write(work, at + 2 * SPAN_RECORD);
        self.base.write(work, at + 3 * SPAN_RECORD);
    }

    // Whether a file's directory and name are those of these pieces of s.
    fn is_file(self, s: &[u8], directory: &[u8], base: &[u8]) -> bool
        requires { PiecesIn s.now self }
        ensures { result ≡ same_file (record { directory = directory.now; basename = base.now }) (file_in s.now self) }
    {
        if self.base.of(s) != base {
            return false;
        }
        is_joined(
            directory,
            self.compilation.of(s),
            self.directory.of(s),
            self.own.of(s),
        )
    }
}

// Whether the record at p is of the file of a directory and a name, which has the hash.
pub fn is_file(
    sheets: Sheets,
    work: &[u8],
    p: usize,
    directory: &[u8],
    base: &[u8],
    hash: u32,
) -> bool
    requires stored_at { StoredAt sheets.main.now sheets.supplementary.now work.now p }
    requires hashed { hash ≡ hash_of (record { directory = directory.now; basename = base.now }) }
    ensures { result ≡ same_file (record { directory = directory.now; basename = base.now })
        (stored_file sheets.entry.main.now sheets.entry.supplementary.now (chunk work.now p file_body)) }
{
    if u32::read(work, p + HASH_AT) != hash {
        return false;
    }
    let s = sheets.of(source_at(work, p));
    FilePieces::read(work, p).is_file(s, directory, base)
}

// Writes a record: a file's pieces, its source, its hash, and the link to the file before it in its chain.
pub fn put_record(
    work: &mut [u8],
    at: usize,
    source: DebugSource,
    pieces: FilePieces,
    hash: u32,
    link: u32,
)
    requires record_fits { at + file_body ≤ length work.old }
    requires pieces_small { PiecesSmall pieces }
    ensures { PutFile work.old work.new at source pieces hash link }
{
    pieces.write(work, at);
    (source as u8).write(work, at + SOURCE_AT);
    hash.write(work, at + HASH_AT);
    link.write(work, at + LINK_AT);
}
