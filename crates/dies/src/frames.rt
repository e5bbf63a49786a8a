// The inline nodes that are open, while the entries below a function are walked: frames by value, their ranges on a stack in the work slice.
ghost use Rattle.std.specs.Prelude.{◌≡◌, ◌+◌, ◌^◌, ◌<◌};
ghost use Rattle.dies.specs.FrameStack.{Ready, Empty, Popped, Top, grown};

use buffers::output::DEEPEST_NODE;

// An open node: the depth of its entry, and where its ranges begin in the stack of ranges.
#[derive(Clone, Copy, Debug)]
pub struct Frame {
    pub depth: u16,
    pub ranges: u32,
}

// The open nodes, and how many. The stack has `used` ranges: the function's own, and then each node's, the innermost last.
// Stays an array of 256 frames with a count: the form that document 01 names.
#[derive(Clone, Copy, Debug)]
pub struct Open {
    pub frames: [Frame; DEEPEST_NODE],
    pub count: usize,
    pub used: usize,
}

impl Open {
    // No open node.
    pub fn none() -> Open
        ensures { Empty result }
    {
        let frame = Frame {
            depth: 0,
            ranges: 0,
        };
        Open {
            frames: [frame; DEEPEST_NODE],
            count: 0,
            used: 1,
        }
    }

    // Closes the nodes of entries at this depth or deeper; the frames that are left stay where they are.
    pub fn finish_inlines(&mut self, depth: u16)
        requires { Ready self.old }
        ensures popped { Popped self.old self.new depth }
        ensures frames_stay { self.new.frames ≡ self.old.frames }
    {
        // Stays a loop: `position` over the frames reversed would leave a test for none closed, and the last frame would be read again.
        for i in (0..self.count).rev() {
            let frame = self.frames[i];
            if frame.depth < depth {
                return;
            }
            self.count = i;
            self.used = frame.ranges as usize;
        }
    }

    // Where the ranges of the innermost open node begin in the stack; with none open these are the function's own, at 0.
    pub(crate) fn innermost(&self) -> usize
        requires { Ready self.now }
        ensures { Top self.now result }
    {
        if self.count == 0 {
            return 0;
        }
        self.frames[self.count - 1].ranges as usize
    }

    // Opens the node of an entry at this depth, whose ranges are as many as these above the stack.
    pub(crate) fn push(&mut self, depth: u16, ranges: usize)
        requires room { self.old.count < 256 }
        requires fits { (self.old.used < 2 ^ 32) × (ranges < 2 ^ 32 + 1) }
        ensures { self.new ≡ grown self.old depth ranges }
    {
        self.frames[self.count] = Frame {
            depth,
            ranges: self.used as u32,
        };
        self.count += 1;
        self.used += ranges;
    }
}
