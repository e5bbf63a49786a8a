// Whether a path is the one that is joined from three pieces, without joining them.
ghost use Rattle.std.specs.Prelude.{◌≡◌, ◌+◌, ◌*◌, ◌≤◌, length};
ghost use Rattle.tlv.specs.Limits.{string_limit};
ghost use Rattle.tlv.specs.Lists.{same};
ghost use Rattle.buffers.specs.Table.{chunk};
ghost use Rattle.paths.specs.Paths.{append_path};
ghost use Rattle.files.specs.Pieces.{Separated};
ghost use Rattle.files.specs.Joined.{component_at};

// How many slashes, 0 or 1, joining puts between a path and a component.
// Stays a number, 0 or 1, as below, no bool: the length of the path and the places in it are sums with it.
fn separator(path: &[u8], component: &[u8]) -> usize
    ensures { Separated path.now component.now result }
{
    if path.is_empty()
        || component.is_empty()
        || path[path.len() - 1] == b'/'
        || component[0] == b'/'
    {
        return 0;
    }
    1
}

// Whether the bytes at a place are those of s.
pub fn bytes_at(path: &[u8], at: usize, s: &[u8]) -> bool
    requires { at + length s.now ≤ length path.now }
    ensures { result ≡ same (chunk path.now at (length s.now)) s.now }
{
    let end = at + s.len();
    &path[at..end] == s
}

// Whether a number of slashes, 0 or 1, and then the bytes of s stand at a place.
fn component_at(path: &[u8], at: usize, slashes: usize, s: &[u8]) -> bool
    requires one_at_most { slashes ≤ 1 }
    requires within { at + slashes + length s.now ≤ length path.now }
    ensures { result ≡ component_at path.now at slashes s.now }
{
    if slashes == 0 {
        return bytes_at(path, at, s);
    }
    path[at] == b'/' && bytes_at(path, at + 1, s)
}

// How many slashes joining puts between directory below compilation and own: what stands before own ends as directory
// does, or as compilation where directory is empty.
fn separator_below(compilation: &[u8], directory: &[u8], own: &[u8]) -> usize
    ensures { Separated (append_path compilation.now directory.now) own.now result }
{
    if directory.is_empty() {
        return separator(compilation, own);
    }
    separator(directory, own)
}

// Whether a path is own below directory below compilation.
pub fn is_joined(path: &[u8], compilation: &[u8], directory: &[u8], own: &[u8]) -> bool
    requires { length compilation.now + length directory.now + length own.now ≤ 3 * string_limit }
    ensures { result ≡ same path.now (append_path (append_path compilation.now directory.now) own.now) }
{
    let first = separator(compilation, directory);
    let second = separator_below(compilation, directory, own);
    if path.len() != compilation.len() + first + directory.len() + second + own.len() {
        return false;
    }
    if !bytes_at(path, 0, compilation) {
        return false;
    }
    let below = compilation.len();
    component_at(path, below, first, directory)
        && component_at(path, below + first + directory.len(), second, own)
}
