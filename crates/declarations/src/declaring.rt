// What a declaration search is given, carries along and answers.
ghost use Rattle.std.specs.Prelude.{◌≡◌};
ghost use Rattle.declarations.specs.Declarations.{answered};

use buffers::table::Stored;
use files::store::StoredFiles;
use references::tables::Tables;
use references::trails::Trail;
use references::ways::EntryAt;
use tlv::model::FileIndex;
use tlv::refusal::Refusal;

// The search's tables, the map of the unit that is imported, and where the spans of a unit's directories and its map are put.
// Stays a place and a size: it is room for two tables that are still to be made, so there is no count of a `Stored`. Only contracts read `room`, to say how far
// a search writes; a `ghost` value in its place would leave the cycle of calls in `resolve` without a generated proof.
#[derive(Clone, Copy, Debug)]
pub struct Places<'a> {
    pub tables: Tables<'a>,
    pub indices: Stored<FileIndex>,
    pub spans: usize,
    pub room: usize,
}

// How far the search has come, the file table, and how many bytes of warnings were written.
// Stays with table and warnings' place side by side, as collect's Converting and CollectedLines and subprograms' ImportState: join_files hands back
// the table alone, and references' warn_about the place alone.
#[derive(Clone, Copy, Debug)]
pub struct DeclaringState {
    pub trail: Trail,
    pub table: StoredFiles,
    pub warned: usize,
}

// Where the search stands, and whether the entry's unit was reached by a section offset.
#[derive(Clone, Copy, Debug)]
pub struct Position {
    pub at: EntryAt,
    pub reached: bool,
}

// A declaration's file and line.
#[derive(Clone, Copy, Debug)]
pub struct Declaration {
    pub file: FileIndex,
    pub line: u32,
}

// The declaration that a search found, where there is one, and the state after it.
#[derive(Clone, Copy, Debug)]
pub struct Declared {
    pub state: DeclaringState,
    pub found: Option<Declaration>,
}

impl DeclaringState {
    // An answer with this state after it.
    pub fn answered(self, answer: Result<Option<Declaration>, Refusal>) -> Result<Declared, Refusal>
        ensures { result ≡ answered self answer }
    {
        answer.map(|found| Declared { state: self, found })
    }
}
