// A file by the pieces of a sheet that its path is joined from (the Rust's intern_file, without its Vec).
ghost use Rattle.std.specs.Prelude.{◌≡◌, ◌+◌, ◌*◌, ◌≤◌, ◌<◌, length};
ghost use Rattle.tlv.specs.Lists.{at};
ghost use Rattle.tlv.specs.Limits.{joined_limit};
ghost use Rattle.access.specs.Places.{unit_here};
ghost use Rattle.paths.specs.Paths.{read_directory, named_directory};
ghost use Rattle.paths.specs.Join.{Laid};
ghost use Rattle.files.specs.Pieces.{file_in, SpanIn, PiecesIn, header_here, FileUnitIn, FileSpanIn, PartsIn, Reads, Before, Relative, Pieced};

use crate::spans::{FileUnit, SPAN_RECORD, Span};
use tlv::bytes::Number;
use tlv::refusal::Refusal;
use tlv::shapes::{DIRECTORY_TEXT, FILE_DIRECTORY, FILE_TEXT};

// A file's path: its name is `base`; its directory is joined from the others, which may be empty.
#[derive(Clone, Copy, Debug)]
pub struct FilePieces {
    pub compilation: Span,
    pub directory: Span,
    pub own: Span,
    pub base: Span,
}

// The two parts of a path: its directory and its name.
#[derive(Clone, Copy, Debug)]
pub struct PathParts {
    pub own: Span,
    pub base: Span,
}

// The two parts of the path in a span.
fn path_parts(s: &[u8], path: Span) -> PathParts
    requires { SpanIn s.now path }
    ensures { PartsIn s.now path result }
{
    let bytes = path.of(s);
    let own = paths::path::directory_of(bytes).len();
    let base = paths::path::basename_of(bytes).len();
    PathParts {
        own: Span {
            start: path.start,
            len: own,
        },
        base: Span {
            start: path.start + path.len - base,
            len: base,
        },
    }
}

impl FileUnit {
    // The compilation directory where a file's directory is below it; else an empty span.
    fn compilation_before(self, s: &[u8], number: u64, directory: Span) -> Span
        requires span_in { SpanIn s.now self.compilation }
        requires directory_in { SpanIn s.now directory }
        ensures { Before s.now self.version self.compilation number directory result }
    {
        if paths::path::needs_compilation(self.version, number, directory.of(s)) {
            return self.compilation;
        }
        Span::default()
    }

    // The directory at an index of the unit's table.
    fn directory_at(self, s: &[u8], work: &[u8], index: u64) -> Result<Span, Refusal>
        requires { FileUnitIn s.now work.now self }
        ensures { Reads s.now result (read_directory (at (unit_here s.now self.place).directories index)) }
    {
        if self.directories.count as u64 <= index {
            return Ok(Span::default());
        }
        let directory = Span::read(work, self.directories.base + index as usize * SPAN_RECORD);
        if u8::read(s, directory.start) == 1 {
            return Err(Refusal::Decoder);
        }
        Ok(Span {
            start: directory.start + DIRECTORY_TEXT,
            len: directory.len - DIRECTORY_TEXT,
        })
    }

    // The directory of a number, which the versions count differently.
    fn named_directory(self, s: &[u8], work: &[u8], number: u64) -> Result<Span, Refusal>
        requires { FileUnitIn s.now work.now self }
        ensures { Reads s.now result (named_directory (unit_here s.now self.place)
            (header_here s.now self.place).version number) }
    {
        let Some(index) = self.counted(number) else {
            return Ok(Span::default());
        };
        self.directory_at(s, work, index)
    }

    // The pieces of a file with a relative path, by the number of its directory.
    fn relative_pieces(
        self,
        s: &[u8],
        work: &[u8],
        number: u64,
        parts: PathParts,
    ) -> Result<Option<FilePieces>, Refusal>
        requires file_unit_in { FileUnitIn s.now work.now self }
        requires own_in { SpanIn s.now parts.own }
        requires base_in { SpanIn s.now parts.base }
        ensures { Relative s.now self number parts result }
    {
        let directory = self.named_directory(s, work, number)?;
        Ok(Some(FilePieces {
            compilation: self.compilation_before(s, number, directory),
            directory,
            own: parts.own,
            base: parts.base,
        }))
    }

    // The pieces of the file whose payload is `file`.
    pub fn file_pieces(
        self,
        s: &[u8],
        work: &[u8],
        file: Span,
    ) -> Result<Option<FilePieces>, Refusal>
        requires file_unit_in { FileUnitIn s.now work.now self }
        requires file_span_in { FileSpanIn s.now file }
        ensures { Pieced s.now self file result }
    {
        if u8::read(s, file.start) == 1 {
            return Err(Refusal::Decoder);
        }
        let path = Span {
            start: file.start + FILE_TEXT,
            len: file.len - FILE_TEXT,
        };
        let parts = path_parts(s, path);
        if parts.base.len == 0 {
            return Ok(None);
        }
        if paths::path::is_absolute_path(path.of(s)) {
            return Ok(Some(FilePieces {
                compilation: Span::default(),
                directory: Span::default(),
                own: parts.own,
                base: parts.base,
            }));
        }
        let number = u64::read(s, file.start + FILE_DIRECTORY);
        self.relative_pieces(s, work, number, parts)
    }
}

impl FilePieces {
    // Joins the directory of the file at a place of the work slice, and returns its length.
    pub fn lay_directory(self, s: &[u8], work: &mut [u8], at: usize) -> usize
        requires pieces_in { PiecesIn s.now self }
        requires path_fits { at + joined_limit ≤ length work.old }
        ensures { Laid work.old work.new at result (file_in s.now self).directory }
    {
        let n = paths::path::append_path(work, at, 0, self.compilation.of(s));
        let n = paths::path::append_path(work, at, n, self.directory.of(s));
        paths::path::append_path(work, at, n, self.own.of(s))
    }
}
