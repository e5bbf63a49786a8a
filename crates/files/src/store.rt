// The file table in the work slice (the Rust's GsymBuilder::add_file): a file is looked up by its hash, and a new one is written to the files tray.
ghost use Rattle.std.specs.Prelude.{◌≡◌, ◌+◌, ◌*◌, ◌≤◌, ◌<◌, ◌^◌, length};
ghost use Rattle.std.proofs.Math.Option.{none, some};
ghost use Rattle.tlv.specs.Outcome.{done};
ghost use Rattle.tlv.specs.Limits.{joined_limit};
ghost use Rattle.lines.specs.Files.{place_of};
ghost use Rattle.files.specs.Pieces.{file_in, PiecesIn, PiecesSmall};
ghost use Rattle.files.specs.Sheets.{sheet_in};
ghost use Rattle.files.specs.Hash.{hash_of};
ghost use Rattle.files.specs.Possible.{possible_files, Possible};
ghost use Rattle.files.specs.Indices.{number_of};
ghost use Rattle.files.specs.Store.{scratch_from, extent, table_of, Linked, LaidFile, LaidAt, FilesIn, file_record, found_of, entries_of, Empty, Adds};
ghost use Rattle.files.specs.Reached.{number_in};

use crate::hash::hash_bytes;
use crate::pieces::FilePieces;
use crate::records::{LINK_AT, is_file, put_record};
use crate::sheets::Sheets;
use buffers::numbers::Written;
use tlv::bytes::Number;
use tlv::grammar::STRING_LIMIT;
use tlv::model::{DebugSource, FileIndex};
use tlv::refusal::Refusal;

// Bytes of a bucket's head, of a file's record, and of both.
const FILE_HEAD: usize = 4;

const FILE_BODY: usize = 41;

pub const FILE_RECORD: usize = FILE_HEAD + FILE_BODY;

// The longest joined path: three strings and the two slashes between them.
pub const JOINED_LIMIT: usize = 3 * STRING_LIMIT + 2;

// The table: the number of its first file, where it stands in the work slice, how many files it has room for and has,
// and how many bytes were written to the files tray.
// Stays a table with chains of its own, no HashMap: the import has no heap, and its tables lie in the lent work slice.
#[derive(Clone, Copy, Debug)]
pub struct StoredFiles {
    pub first: u32,
    pub base: usize,
    pub room: usize,
    pub count: usize,
    pub written: usize,
}

// The table with a file in it, and the file's number.
#[derive(Clone, Copy, Debug)]
pub struct AddedFile {
    pub table: StoredFiles,
    pub number: FileIndex,
}

// The length of a directory that was laid, and the hash of its file.
// Stays a length alone: the directory is laid at the table's scratch, which all that are given this have.
#[derive(Clone, Copy, Debug)]
pub struct LaidHash {
    pub len: usize,
    pub hash: u32,
}

impl StoredFiles {
    // An empty table at base, whose first file gets the number `first` and is written at the place `written` of the files tray.
    // Stays with base and room apart: Stored has a base and a count, and this table's count starts at 0 whatever its room.
    pub fn new(
        sheets: Sheets,
        work: &mut [u8],
        base: usize,
        room: usize,
        first: u32,
        written: usize,
    ) -> StoredFiles
        requires files_few { length (possible_files sheets.main.now sheets.supplementary.now) < room }
        requires room_small { room < 2 ^ 32 }
        requires table_within { base + (room * file_record + joined_limit) ≤ length work.old }
        requires main_small { length sheets.main.now < 2 ^ 32 }
        requires supplementary_small { length sheets.supplementary.now < 2 ^ 32 }
        ensures { Empty sheets.entry.main.now sheets.entry.supplementary.now work.old work.new base room first written result }
    {
        buffers::table::fill_zero(work, base, base + room * FILE_HEAD);
        StoredFiles {
            first,
            base,
            room,
            count: 0,
            written,
        }
    }

    // Where the room stands in which a path is joined, behind its records.
    pub fn scratch(self) -> usize
        requires { self.base + extent self < 2 ^ 64 }
        ensures { result ≡ scratch_from self }
    {
        self.base + self.room * FILE_RECORD
    }

    // The place of the file of a directory and a name, which has the hash.
    // Stays with directory, name and hash apart, as records' is_file: a struct of them would be made for one look-up, and taken apart at each record;
    // and beside references' is_visited, another table of chains: one walk would take where chains and links stand, a record's size, and a test.
    pub fn find_file(
        self,
        sheets: Sheets,
        work: &[u8],
        directory: &[u8],
        base: &[u8],
        hash: u32,
    ) -> Option<usize>
        requires files_in { FilesIn sheets.main.now sheets.supplementary.now work.now self }
        requires hashed { hash ≡ hash_of (record { directory = directory.now; basename = base.now }) }
        ensures { found_of result ≡ place_of (record { directory = directory.now; basename = base.now })
            (entries_of sheets.entry.main.now sheets.entry.supplementary.now work.now self) }
    {
        let bucket = hash as usize % self.room;
        let mut k = u32::read(work, self.base + bucket * FILE_HEAD) as usize;
        // Stays a loop: it follows a chain, whose links lead to ever lower places; nothing is counted.
        while k != 0 {
            let p = self.base + self.room * FILE_HEAD + (k - 1) * FILE_BODY;
            if is_file(sheets, work, p, directory, base, hash) {
                return Some(k - 1);
            }
            k = u32::read(work, p + LINK_AT) as usize;
        }
        None
    }

    // The table's number of the file of pieces of s, whose directory was laid in the table's scratch.
    pub(crate) fn laid_number(
        self,
        sheets: Sheets,
        s: &[u8],
        pieces: FilePieces,
        work: &[u8],
        laid: LaidHash,
    ) -> Option<FileIndex>
        requires files_in { FilesIn sheets.main.now sheets.supplementary.now work.now self }
        requires pieces_in { PiecesIn s.now pieces }
        requires laid_file { LaidFile work.now self laid.len laid.hash (file_in s.now pieces) }
        ensures { number_of result ≡ number_in (table_of sheets.entry.main.now sheets.entry.supplementary.now work.now self)
            (done (some (file_in s.now pieces))) }
    {
        let at = self.scratch();
        let end = at + laid.len;
        let i = self.find_file(sheets, work, &work[at..end], pieces.base.of(s), laid.hash)?;
        Some(FileIndex(self.first + i as u32))
    }

    // Writes the record of a file that is not in the table, at the table's end, and makes it the first of its chain.
    // Stays with source and pieces apart, as those below and put_record: laid_number and lay take the sheet itself, and no source.
    fn link_file(self, work: &mut [u8], source: DebugSource, pieces: FilePieces, hash: u32)
        requires has_room { (self.count < self.room) × (self.room < 2 ^ 32) }
        requires table_within { self.base + extent self ≤ length work.old }
        requires pieces_small { PiecesSmall pieces }
        ensures { Linked work.old work.new self source pieces hash }
    {
        let head = self.base + hash as usize % self.room * FILE_HEAD;
        let link = u32::read(work, head);
        let at = self.base + self.room * FILE_HEAD + self.count * FILE_BODY;
        put_record(work, at, source, pieces, hash, link);
        ((self.count + 1) as u32).write(work, head);
    }

    // Adds a file that is not in the table, of pieces of the source's sheet; its directory was laid at the table's scratch.
    fn append_file(
        self,
        sheets: Sheets,
        source: DebugSource,
        pieces: FilePieces,
        work: &mut [u8],
        files: &mut [u8],
        laid: LaidHash,
    ) -> Result<AddedFile, Refusal>
        requires files_in { FilesIn sheets.main.now sheets.supplementary.now work.old self }
        requires pieces_in { PiecesIn (sheet_in sheets source) pieces }
        requires possible { Possible sheets.main.now sheets.supplementary.now (file_in (sheet_in sheets source) pieces) }
        requires laid_file { LaidFile work.old self laid.len laid.hash (file_in (sheet_in sheets source) pieces) }
        requires is_new { place_of (file_in (sheet_in sheets source) pieces)
            (entries_of sheets.main.now sheets.supplementary.now work.old self) ≡ none }
        ensures { Adds sheets.entry.main.now sheets.entry.supplementary.now work.old work.new files.old files.new self
            (file_in (sheet_in sheets.entry source) pieces) result }
    {
        let number = self
            .first
            .checked_add(self.count as u32)
            .ok_or(Refusal::FilesFull)?;
        let s = sheets.of(source);
        let at = self.scratch();
        let end = at + laid.len;
        let name = pieces.base.of(s);
        let written = buffers::output::put_file(files, self.written, &work[at..end], name);
        self.link_file(work, source, pieces, laid.hash);
        Ok(AddedFile {
            table: StoredFiles {
                count: self.count + 1,
                written,
                ..self
            },
            number: FileIndex(number),
        })
    }

    // Adds the file of pieces of the source's sheet, unless the table has it, and gives its number.
    pub fn add_file(
        self,
        sheets: Sheets,
        source: DebugSource,
        pieces: FilePieces,
        work: &mut [u8],
        files: &mut [u8],
    ) -> Result<AddedFile, Refusal>
        requires files_in { FilesIn sheets.main.now sheets.supplementary.now work.old self }
        requires pieces_in { PiecesIn (sheet_in sheets source) pieces }
        requires possible { Possible sheets.main.now sheets.supplementary.now (file_in (sheet_in sheets source) pieces) }
        ensures { Adds sheets.entry.main.now sheets.entry.supplementary.now work.old work.new files.old files.new self
            (file_in (sheet_in sheets.entry source) pieces) result }
    {
        let s = sheets.of(source);
        let laid = pieces.lay(s, work, self.scratch());
        match self.laid_number(sheets, s, pieces, work, laid) {
            Some(number) => Ok(AddedFile {
                table: self,
                number,
            }),
            None => self.append_file(sheets, source, pieces, work, files, laid),
        }
    }
}

impl FilePieces {
    // Lays the directory of the file, and gives its length and the file's hash.
    pub fn lay(self, s: &[u8], work: &mut [u8], at: usize) -> LaidHash
        requires pieces_in { PiecesIn s.now self }
        requires path_fits { at + joined_limit ≤ length work.old }
        ensures { LaidAt work.old work.new at (file_in s.now self) result }
    {
        let len = self.lay_directory(s, work, at);
        let end = at + len;
        let hash = hash_bytes(hash_bytes(0, &work[at..end]), self.base.of(s));
        LaidHash { len, hash }
    }
}
