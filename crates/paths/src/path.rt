// Paths: parts of a path, and paths joined in a work slice.
ghost use Rattle.std.specs.Prelude.{◌≡◌, ◌+◌, ◌≤◌, length};
ghost use Rattle.std.specs.List.{list_any};
ghost use Rattle.buffers.specs.Buffer.{overlay};
ghost use Rattle.buffers.specs.Table.{chunk};
ghost use Rattle.line_program.specs.Standard.{slash};
ghost use Rattle.paths.specs.Paths.{is_separator, starts_with, is_drive, is_share, is_letter, has_drive_letter, starts_doubled};
ghost use Rattle.paths.specs.Paths.{is_windows, splits_at, base_start};
ghost use Rattle.paths.specs.Paths.{basename_of, root_length, directory_name, is_absolute, append_path, needs_compilation};
ghost use Rattle.paths.specs.Join.{Laid};

// The place after the last byte that splits a path; 0 without one.
fn base_start(path: &[u8]) -> usize
    ensures { (result ≡ base_start path.now) × (result ≤ length path.now) }
{
    let windows = is_windows(path);
    let last = path.iter().rev().position(|&b| splits_at(windows, b));
    match last {
        Some(behind) => path.len() - behind,
        None => 0,
    }
}

// What stands before the basename of a path; the separator between them stays with the root.
pub fn directory_of(path: &[u8]) -> &[u8]
    ensures { result.now ≡ directory_name path.now }
{
    let n = base_start(path);
    let root = root_length(path);
    if n <= root {
        return &path[..n];
    }
    &path[..n - 1]
}

// What stands after the last byte that splits a path.
pub fn basename_of(path: &[u8]) -> &[u8]
    ensures { result.now ≡ basename_of path.now }
{
    let n = base_start(path);
    &path[n..]
}

#[tactic(auto, unfolding(crate::specs::Paths::is_separator))]
fn is_separator(b: u8) -> bool
    ensures { result ≡ is_separator b }
{
    matches!(b, b'/' | b'\\')
}

fn any_separator(path: &[u8]) -> bool
    ensures { result ≡ list_any is_separator path.now }
{
    path.iter().any(|&b| is_separator(b))
}

#[tactic(auto, unfolding(crate::specs::Paths::starts_with))]
fn starts_with_slash(path: &[u8]) -> bool
    ensures { result ≡ starts_with slash path.now }
{
    path.first() == Some(&b'/')
}

#[tactic(auto, unfolding(crate::specs::Paths::is_drive))]
fn has_drive(path: &[u8]) -> bool
    ensures { result ≡ is_drive path.now }
{
    path.len() >= 3 && path[1] == b':' && is_separator(path[2])
}

#[tactic(auto, unfolding(crate::specs::Paths::is_share))]
fn is_share(path: &[u8]) -> bool
    ensures { result ≡ is_share path.now }
{
    path.len() >= 3
        && is_separator(path[0])
        && path[0] == path[1]
        && !is_separator(path[2])
        && any_separator(&path[3..])
}

#[tactic(auto, unfolding(crate::specs::Paths::is_absolute))]
pub fn is_absolute_path(path: &[u8]) -> bool
    ensures { result ≡ is_absolute path.now }
{
    starts_with_slash(path) || has_drive(path) || is_share(path)
}

#[tactic(auto, unfolding(crate::specs::Paths::is_letter))]
fn is_letter(b: u8) -> bool
    ensures { result ≡ is_letter b }
{
    b.is_ascii_alphabetic()
}

// Whether a path begins with a drive letter, a colon and a separator.
fn has_drive_letter(path: &[u8]) -> bool
    ensures { result ≡ has_drive_letter path.now }
{
    has_drive(path) && is_letter(path[0])
}

// Whether a path begins with two backslashes.
#[tactic(auto, unfolding(crate::specs::Paths::starts_doubled))]
fn starts_doubled(path: &[u8]) -> bool
    ensures { result ≡ starts_doubled path.now }
{
    path.len() >= 2 && path[0] == b'\\' && path[1] == b'\\'
}

#[tactic(auto, unfolding(crate::specs::Paths::is_windows))]
fn is_windows(path: &[u8]) -> bool
    ensures { result ≡ is_windows path.now }
{
    has_drive_letter(path) || starts_doubled(path)
}

// Whether a byte splits a path.
#[tactic(auto, unfolding(crate::specs::Paths::splits_at))]
fn splits_at(windows: bool, b: u8) -> bool
    ensures { result ≡ splits_at windows b }
{
    if windows { is_separator(b) } else { b == b'/' }
}

// How many bytes at the front of a path keep their last separator.
#[tactic(auto, unfolding(crate::specs::Paths::root_length))]
fn root_length(path: &[u8]) -> usize
    ensures { result ≡ root_length path.now }
{
    if has_drive_letter(path) {
        return 3;
    }
    if starts_doubled(path) {
        return 2;
    }
    1
}

// Copies a path to a place of the work slice.
// Stays a loop: `copy_from_slice` calls C's `memmove`, a name that the library for C asks for nowhere.
fn copy_in(work: &mut [u8], to: usize, path: &[u8])
    requires { to + length path.now ≤ length work.old }
    ensures { work.new ≡ overlay to path.now work.old }
{
    for i in 0..path.len() {
        work[to + i] = path[i];
    }
}

// Puts a component below the path of n bytes that stands at a place of the work slice, and returns its length then.
// Stays a place and a length: each call moves the length alone, so a table of bytes would be made anew for each part.
pub fn append_path(work: &mut [u8], at: usize, n: usize, component: &[u8]) -> usize
    requires { at + n + 1 + length component.now ≤ length work.old }
    ensures { Laid work.old work.new at result (append_path (chunk work.old at n) component.now) }
{
    let m = component.len();
    let end = at + n;
    if m == 0 {
        return n;
    }
    if n == 0 {
        copy_in(work, at, component);
        return m;
    }
    if work[end - 1] == b'/' || component[0] == b'/' {
        copy_in(work, end, component);
        return n + m;
    }
    work[end] = b'/';
    copy_in(work, end + 1, component);
    n + 1 + m
}

// Whether a file's directory is one below the compilation directory.
#[tactic(auto, unfolding(crate::specs::Paths::needs_compilation))]
pub fn needs_compilation(version: u8, number: u64, directory: &[u8]) -> bool
    ensures { result ≡ needs_compilation version number directory.now }
{
    !is_absolute_path(directory) && (version < 5 || number != 0)
}
