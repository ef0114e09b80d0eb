// What each call of the machine answers: the tests of the state, then those of the call, in their order; and which bytes of the memory a frame may write.
#![tactic(auto)]

ghost use Rattle.std.specs.Prelude.{◌≡◌, ◌+◌, ◌≤◌};
ghost use Rattle.frame_rules.specs.Helpers.{LawfulFrames};
ghost use Rattle.frame_rules.specs.Frames.{max_outgoing, outgoing_length, max_memory};
ghost use Rattle.frame_machine.specs.Machine.{inside, outgoing_from, locals_from, writable_bytes, writable_address, enter_answer, write_register_answer, write_memory_answer, leave_answer};
ghost use Rattle.frame_machine.specs.Helpers.{Sound};

use frame_machine::{FrameRefusal, MAX_ENTERED, State};
use frame_rules::{Frame, FrameRules};

// The most bytes that one call may write.
const MAX_WRITE: usize = 256;

// n bytes from offset a wholly inside the bytes from offset b up to e.
fn lies_inside(a: usize, n: usize, b: usize, e: usize) -> bool
    ensures { result ≡ inside a n b e }
{
    b <= a && a <= e && n <= e - a
}

// Where the own outgoing area and the locals of the frame f start, with its pointer at o.
fn outgoing_from(k: FrameRules, f: Frame, o: usize) -> usize
    requires { (LawfulFrames k) × (k.floor ≤ o) × (o ≤ max_memory) }
    ensures { result ≡ outgoing_from k f o }
{
    if f.leaf { o - k.floor } else { o + k.header }
}

fn locals_from(k: FrameRules, f: Frame, o: usize) -> usize
    requires { (LawfulFrames k) × (k.floor ≤ o) × (o ≤ max_memory) × (outgoing_length k f ≤ max_outgoing + 256) }
    ensures { result ≡ locals_from k f o }
{
    if f.leaf {
        o - k.floor
    } else {
        o + k.header + frame_requests::outgoing_length(k, f)
    }
}

// May the n bytes from offset a be written?
fn bytes_writable(k: FrameRules, s: State, a: usize, n: usize, len: usize) -> bool
    requires { (LawfulFrames k) × (Sound k s len) }
    ensures { result ≡ writable_bytes k s a n }
{
    if n < 1 {
        return false;
    }
    if MAX_WRITE < n {
        return false;
    }
    let d = s.depth;
    let f = frame_state_checks::top_frame(k, s);
    let b = s.base;
    let o = (frame_state_checks::stack_pointer(k, s) - b) as usize;
    let own = outgoing_from(k, f, o);
    let locals = locals_from(k, f, o);
    if lies_inside(a, n, own, locals) {
        return true;
    }
    if d == 0 {
        return false;
    }
    let c = o + frame_requests::frame_size(k, f);
    let saves = c - frame_requests::below_size(k, f);
    if lies_inside(a, n, locals, saves) {
        return true;
    }
    let g = frame_state_checks::caller_frame(k, s);
    let callers = c + k.header;
    lies_inside(
        a,
        n,
        callers,
        callers + frame_requests::outgoing_length(k, g),
    )
}

// The same of n bytes at an address.
#[tactic(auto, unfolding(frame_machine::specs::Machine::writable_address))]
pub fn address_writable(k: FrameRules, s: State, address: u64, n: usize, len: usize) -> bool
    requires { (LawfulFrames k) × (Sound k s len) }
    ensures { result ≡ writable_address k s address n }
{
    s.base <= address && bytes_writable(k, s, (address - s.base) as usize, n, len)
}

pub fn judge_enter(k: FrameRules, s: State, n: usize, f: Frame) -> Result<(), FrameRefusal>
    requires { LawfulFrames k }
    ensures { result ≡ enter_answer k s n f }
{
    frame_state_checks::judge_state(k, s, n)?;
    if !frame_requests::request_ok(k, f) {
        return Err(FrameRefusal::BadRequest);
    }
    let u = frame_state_checks::top_frame(k, s);
    if u.leaf {
        return Err(FrameRefusal::AboveLeaf);
    }
    if MAX_ENTERED <= s.depth {
        return Err(FrameRefusal::TooManyFrames);
    }
    let p = frame_state_checks::stack_pointer(k, s);
    let z = frame_requests::frame_size(k, f);
    if p - s.base < (z + k.floor) as u64 {
        return Err(FrameRefusal::NoRoom);
    }
    Ok(())
}

pub fn judge_write_register(
    k: FrameRules,
    s: State,
    n: usize,
    bank: u64,
    number: u64,
    value: u64,
) -> Result<(), FrameRefusal>
    requires { LawfulFrames k }
    ensures { result ≡ write_register_answer k s n bank number value }
{
    frame_state_checks::judge_state(k, s, n)?;
    let f = frame_state_checks::top_frame(k, s);
    let b = frame_writing::bank_of(bank);
    if !frame_writing::register_writable(k, f, b, number as usize, value) {
        return Err(FrameRefusal::NotPermitted);
    }
    Ok(())
}

pub fn judge_write_memory(
    k: FrameRules,
    s: State,
    n: usize,
    address: u64,
    m: usize,
) -> Result<(), FrameRefusal>
    requires { LawfulFrames k }
    ensures { result ≡ write_memory_answer k s n address m }
{
    frame_state_checks::judge_state(k, s, n)?;
    if !address_writable(k, s, address, m, n) {
        return Err(FrameRefusal::NotPermitted);
    }
    Ok(())
}

pub fn judge_leave(k: FrameRules, s: State, memory: &[u8]) -> Result<(), FrameRefusal>
    requires { LawfulFrames k }
    ensures { result ≡ leave_answer k s memory.now }
{
    frame_state_checks::judge_state(k, s, memory.len())?;
    if s.depth == 0 {
        return Err(FrameRefusal::NothingEntered);
    }
    let frame = frame_state_checks::top_frame(k, s);
    if frame.leaf {
        return Ok(());
    }
    let z = frame_requests::frame_size(k, frame);
    let p = frame_state_checks::stack_pointer(k, s);
    let o = (p - s.base) as usize;
    let at = frame_preserving::link_at(k, o, o + z);
    if base_words::load(memory, at, k.word) != p + z as u64 {
        return Err(FrameRefusal::BrokenChain);
    }
    Ok(())
}
