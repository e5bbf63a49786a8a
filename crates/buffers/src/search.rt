// A search by halves among numbers, such as those of the records of a table.
ghost use Rattle.std.specs.Prelude.{ℕ, ◌<◌};
ghost use Rattle.buffers.specs.Search.{TurnsAt};

// How many of the numbers below n pass a test, where each that does stands before all that do not.
pub fn lower_bound<F: Fn(usize) -> bool>(n: usize, test: F) -> usize
    requires { (i : ℕ) → i < n → F.pre test i }
    ensures { TurnsAt (F.post test) n result }
{
    let mut lo = 0;
    let mut hi = n;
    // Stays a loop: `partition_point` wants a slice of elements, and what is searched are records in bytes.
    while lo < hi {
        let mid = lo + (hi - lo) / 2;
        if test(mid) {
            lo = mid + 1;
        } else {
            hi = mid;
        }
    }
    lo
}
