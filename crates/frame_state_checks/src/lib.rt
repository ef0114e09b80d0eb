// The tests that every call makes of a state and its memory (refusals 23 and 16), and what calls read of a state: the stack pointer, the frame entered last and its caller.
#![tactic(auto)]

ghost use Rattle.std.specs.Prelude.{◌≡◌, true, ◌*◌, ◌≤◌};
ghost use Rattle.frame_rules.specs.Helpers.{LawfulFrames};
ghost use Rattle.frame_rules.specs.Frames.{most_size};
ghost use Rattle.frame_machine.specs.Answers.{judge};
ghost use Rattle.frame_machine.specs.Machine.{max_entered, stack_pointer, top_frame, top, caller, ok_frames, sizes, ok_state, state_tests};

use frame_machine::{FrameRefusal, MAX_ENTERED, State};
use frame_rules::{Frame, FrameRules};

// The frame entered last of d; the start where there is none.
fn frame_under(k: FrameRules, fs: [Frame; MAX_ENTERED], d: usize) -> Frame
    requires { d ≤ max_entered }
    ensures { result ≡ top_frame k fs d }
{
    if d == 0 {
        frame_rules::start_frame(k)
    } else {
        fs[d - 1]
    }
}

fn frames_ok(k: FrameRules, fs: [Frame; MAX_ENTERED], depth: usize) -> bool
    requires { depth ≤ max_entered }
    ensures { result ≡ ok_frames k fs depth }
{
    for d in (0..depth).rev() {
        if !frame_requests::request_ok(k, fs[d]) || frame_under(k, fs, d).leaf {
            return false;
        }
    }
    true
}

fn sizes_of(k: FrameRules, fs: [Frame; MAX_ENTERED], depth: usize) -> usize
    requires { (LawfulFrames k) × (depth ≤ max_entered) × (ok_frames k fs depth ≡ true) }
    ensures { (result ≡ sizes k fs depth) × (result ≤ max_entered * most_size) }
{
    let mut sum = 0;
    for d in 0..depth {
        sum += frame_requests::frame_size(k, fs[d]);
    }
    sum
}

// The word of the stack pointer's register.
pub fn stack_pointer(k: FrameRules, s: State) -> u64
    requires { LawfulFrames k }
    ensures { result ≡ stack_pointer k s }
{
    s.registers.gpr[k.pointer]
}

#[tactic(auto, unfolding(frame_machine::specs::Machine::ok_state))]
fn state_ok(k: FrameRules, s: State) -> bool
    requires { LawfulFrames k }
    ensures { result ≡ ok_state k s }
{
    if !frame_bounds::registers_ok(k, s.registers)
        || MAX_ENTERED < s.depth
        || !frames_ok(k, s.frames, s.depth)
        || !frame_bounds::memory_ok(k, s.base, s.size)
    {
        return false;
    }
    let p = stack_pointer(k, s);
    if p < s.base + k.floor as u64 {
        return false;
    }
    let used = (sizes_of(k, s.frames, s.depth) + k.room) as u64;
    let end = s.base + s.size as u64;
    used <= end && p == end - used
}

// Refusals 23 and 16.
#[tactic(auto, unfolding(frame_machine::specs::Answers::judge))]
pub fn judge_state(k: FrameRules, s: State, n: usize) -> Result<(), FrameRefusal>
    requires { LawfulFrames k }
    ensures { result ≡ judge (state_tests k s n) }
{
    if !state_ok(k, s) {
        return Err(FrameRefusal::BadState);
    }
    if n != s.size {
        return Err(FrameRefusal::BadMemory);
    }
    Ok(())
}

// The frame entered last, and its caller; the start where there is none.
pub fn top_frame(k: FrameRules, s: State) -> Frame
    requires { s.depth ≤ max_entered }
    ensures { result ≡ top k s }
{
    frame_under(k, s.frames, s.depth)
}

pub fn caller_frame(k: FrameRules, s: State) -> Frame
    requires { s.depth ≤ max_entered }
    ensures { result ≡ caller k s }
{
    if s.depth <= 1 {
        frame_rules::start_frame(k)
    } else {
        s.frames[s.depth - 2]
    }
}
