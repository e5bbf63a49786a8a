// A caller's rows compacted where they are (the Rust's normalize.rs). The tables' rows are bytes of the work slice, which crates/rows compacts.
#![tactic(auto)]

ghost use Rattle.std.specs.Prelude.{◌≡◌};
ghost use Rattle.lines.specs.Lines.{same_line};
ghost use Rattle.normalize.specs.Compacts.{CompactsRows};

use tlv::model::LineEntry;

// Whether two rows have the same file and line.
// Stays by hand: the address and the column do not count, which a derived `==` would compare too.
fn same_line(a: LineEntry, b: LineEntry) -> bool
    ensures { result ≡ same_line a b }
{
    a.file == b.file && a.line == b.line
}

// Of each run of rows with one file and line the first is kept, moved down in place. Returns how many are left.
// Stays beside rows' compact_line_rows: that drops records in bytes of the work slice; one loop would take a copy and a test of each kind.
pub fn compact_line_rows(lines: &mut [LineEntry]) -> usize
    ensures { CompactsRows lines.old lines.new result }
{
    if lines.is_empty() {
        return 0;
    }
    let mut last = 0;
    for i in 1..lines.len() {
        if !same_line(lines[last], lines[i]) {
            last += 1;
            lines[last] = lines[i];
        }
    }
    last + 1
}
