// The answers of the look-ups, and the numbers of a records tray. A place is the byte place of a field in the tray.

// How long the payloads of a tray's fields are as buffers writes them, or are at the least where a name or a pattern follows.
pub const FUNCTION_SIZE: usize = buffers::output::TRAY_FUNCTION as usize;

pub const ROW_SIZE: usize = buffers::output::TRAY_ROW as usize;

pub const NODE_SIZE: usize = buffers::output::TRAY_NODE as usize;

pub const RANGE_SIZE: usize = buffers::output::TRAY_RANGE as usize;

pub const SITE_SIZE: usize = buffers::output::TRAY_SITE as usize;

// The depth of the deepest node, and how many nodes a chain has at most.
pub const DEEPEST: u64 = buffers::output::DEEPEST_NODE as u64;

pub const CHAIN_MOST: usize = buffers::output::DEEPEST_NODE + 1;

// The places of a chain's nodes, the root's first, 0 behind them.
// Stays an array with a count beside it: C lends room for these 257 places, 0 behind the nodes, and for their number apart; a Vec would need the heap.
#[derive(Clone, Copy, Debug)]
pub struct Chain {
    pub places: [usize; CHAIN_MOST],
    pub nodes: usize,
}

// What is running at an address: the function, its row in force, the chain of its nodes that hold the address.
#[derive(Clone, Copy, Debug)]
pub struct LookedUp {
    pub function: usize,
    pub row: Option<usize>,
    pub chain: Chain,
}

// How many functions an index has, and whether it is in the order of their addresses.
#[derive(Clone, Copy, Debug)]
pub struct Indexed {
    pub functions: usize,
    pub rising: bool,
}
