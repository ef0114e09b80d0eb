// The frame machine, a stack of frames in lent memory: its state, and what a call answers. The definitions of all calls stand in specs/; `frame_state_checks`, `both_abi`,
// `frame_call_checks` and `frame_calls` have their code.
#![tactic(auto)]

ghost use Rattle.std.specs.Prelude.{◌≡◌};
ghost use Rattle.frame_machine.specs.Answers.{frame_refusal_number, frame_answer_number};

use base_conventions::Convention;
use frame_rules::{Frame, Registers};

// Why a call is refused.
#[derive(Clone, Copy, Debug, PartialEq, Eq)]
pub enum FrameRefusal {
    // The memory's length or base is out of range, or its length is not that of the start.
    BadMemory,
    // The request is out of range.
    BadRequest,
    // All 32 frames are entered.
    TooManyFrames,
    // The new stack pointer would lie below the memory.
    NoRoom,
    // The write is not permitted.
    NotPermitted,
    // The back chain, on Z the stack pointer's slot, isn't the caller's stack pointer.
    BrokenChain,
    // No frame is entered.
    NothingEntered,
    // The state's numbers can't be.
    BadState,
    // The frame entered last is a leaf.
    AboveLeaf,
}

// Document 01's number of a refusal.
impl From<FrameRefusal> for u64 {
    ghost from_gives = { λ r n. n ≡ frame_refusal_number r };

    fn from(r: FrameRefusal) -> u64 {
        match r {
            FrameRefusal::BadMemory => 16,
            FrameRefusal::BadRequest => 17,
            FrameRefusal::TooManyFrames => 18,
            FrameRefusal::NoRoom => 19,
            FrameRefusal::NotPermitted => 20,
            FrameRefusal::BrokenChain => 21,
            FrameRefusal::NothingEntered => 22,
            FrameRefusal::BadState => 23,
            FrameRefusal::AboveLeaf => 28,
        }
    }
}

// An answer's number: 0 for an accepted call.
pub fn answer_number(a: Result<(), FrameRefusal>) -> u64
    ensures { result ≡ frame_answer_number a }
{
    match a {
        Ok(()) => 0,
        Err(r) => u64::from(r),
    }
}

// The most frames that may be entered.
pub const MAX_ENTERED: usize = 32;

// A machine between two calls. Its memory has `size` bytes from the address `base` on; the first `depth` of `frames` are entered.
#[derive(Clone, Copy)]
pub struct State {
    pub convention: Convention,
    pub base: u64,
    pub size: usize,
    pub depth: usize,
    pub registers: Registers,
    pub frames: [Frame; MAX_ENTERED],
}

// What a call answers, and the state after it. The state is promised after a refusal too, so it stands beside the answer and not inside it.
#[derive(Clone, Copy)]
pub struct FrameOutcome {
    pub answer: Result<(), FrameRefusal>,
    pub state: State,
}
