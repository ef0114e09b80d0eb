// A walker over the arguments of a call, type by type: its state, and the answer of its calls. No code: what they mean is in specs/, and the functions are
// in the crates above.
#![tactic(auto)]

use base_conventions::Convention;
use call_slots::CallError;

// The words of a walker, and the largest counter.
pub const WALKER_WORDS: usize = 6;

pub const MAX_COUNTER: u64 = 4294967296;

// How far a walker is. PowerPC: the words passed so far, the FPRs used so far, and 0. Z: the next GPR, the next FPR, the next stack offset.
#[derive(Clone, Copy)]
pub struct Counters {
    pub general: u64,
    pub floating: u64,
    pub stack: u64,
}

// The convention, the marks of an ellipsis and of a hidden address, and how far it is.
#[derive(Clone, Copy)]
pub struct Walker {
    pub convention: Convention,
    pub ellipsis: bool,
    pub hidden: bool,
    pub at: Counters,
}

// What six words are read as.
#[derive(Clone, Copy)]
pub enum WalkerRead {
    Walker(Walker),
    Lost,
}

// The answer of a call: the words are no walker's, or what the reading of a signature, of an item or of an argument answers.
#[derive(Clone, Copy)]
pub enum WalkerAnswer {
    Lost,
    Called(Result<(), CallError>),
}
