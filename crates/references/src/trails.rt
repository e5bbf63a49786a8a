// How far a search has come.
ghost use Rattle.std.specs.Prelude.{◌≡◌, ◌+◌, ◌≤◌, ◌<◌};

// How many targets a search has followed, and how many entries it has read, its start included: each target leads to one at most.
#[derive(Clone, Copy, Debug)]
pub struct Trail {
    pub count: usize,
    pub reads: usize,
    ghost few: { reads ≤ count + 1 },
}

// What a search answered, and how many entries it read for it.
#[derive(Clone, Copy, Debug)]
pub struct Counted<T> {
    pub answer: T,
    pub reads: usize,
}

impl Trail {
    // Nothing was followed, and the entry where the search starts was read.
    pub fn start() -> Trail
        ensures none_followed { result.count ≡ 0 }
        ensures start_read { result.reads ≡ 1 }
    {
        Trail { count: 0, reads: 1 }
    }

    // A target was followed that leads to no entry.
    pub fn with_target(self) -> Trail
        requires { self.count + 2 < 18446744073709551616 }
        ensures one_followed { result.count ≡ self.count + 1 }
        ensures none_read { result.reads ≡ self.reads }
    {
        let mut trail = self;
        trail.count += 1;
        trail
    }

    // A target was followed, and its entry read.
    pub fn with_entry(self) -> Trail
        requires { self.count + 2 < 18446744073709551616 }
        ensures one_followed { result.count ≡ self.count + 1 }
        ensures one_read { result.reads ≡ self.reads + 1 }
    {
        let mut trail = self.with_target();
        trail.reads += 1;
        trail
    }
}
