// The frame machine's state read from 64-bit words, and written to them.
#![tactic(auto)]

ghost use Rattle.std.specs.Prelude.{◌≡◌, ◌+◌, ◌≤◌, ◌<◌, length};
ghost use Rattle.base_words.specs.Splice.{splice, part};
ghost use Rattle.frame_machine.specs.Machine.{max_entered};
ghost use Rattle.frame_word_layout.specs.Words.{machine_words, registers_words, record_words, records_at, depth_in, registers_in, frame_in, frames_in, state_in, register_words, frames_words, state_words, with_registers, with_frame};
ghost use Rattle.frame_word_layout.specs.Calls.{changed};

use base_conventions::Convention;
use frame_machine::{MAX_ENTERED, State};
use frame_rules::{Frame, NO_FRAME, Registers};
use frame_word_layout::{
    CR_AT, CR_IN, DEPTH_AT, FLOATING_AT, FLOATING_IN, LR_AT, LR_IN, RECORD_WORDS, RECORDS_AT,
    REGISTERS_AT,
};

// ---- reading

// n words of `from` from `start` on, over the words of `to` from `at` on.
fn copy(to: &mut [u64], at: usize, from: &[u64], start: usize, n: usize)
    requires { (at + n ≤ length to.old) × (start + n ≤ length from.now) }
    ensures { to.new ≡ splice to.old at (part start n from.now) }
{
    for i in 0..n {
        to[at + i] = from[start + i];
    }
}

// The registers in the words from `at` on; of CR the low 32 bits.
pub fn registers_in(words: &[u64], at: usize) -> Registers
    requires { at + registers_words ≤ length words.now }
    ensures { result ≡ registers_in words.now at }
{
    let mut gpr: [u64; 32] = [0; 32];
    let mut fpr: [u64; 32] = [0; 32];
    copy(&mut gpr, 0, words, at, 32);
    copy(&mut fpr, 0, words, at + FLOATING_IN, 32);
    Registers {
        gpr,
        fpr,
        lr: words[at + LR_IN],
        cr: (words[at + CR_IN] % 4294967296) as u32,
    }
}

// The request or the record in the six words from `at` on; one that is refused where a flag of it is neither 0 nor 1.
#[tactic(auto, unfolding(frame_word_layout::specs::Words::frame_in))]
pub fn frame_in(words: &[u64], at: usize) -> Frame
    requires { at + record_words ≤ length words.now }
    ensures { result ≡ frame_in words.now at }
{
    let flag = words[at + 2];
    let mark = words[at + 5];
    if 1 < flag || 1 < mark {
        return NO_FRAME;
    }
    Frame {
        first_gpr: words[at] as usize,
        first_fpr: words[at + 1] as usize,
        saves_cr: flag == 1,
        locals: words[at + 3] as usize,
        outgoing: words[at + 4] as usize,
        leaf: mark == 1,
    }
}

// All 32 records.
fn frames_in(words: &[u64]) -> [Frame; MAX_ENTERED]
    requires { length words.now ≡ machine_words }
    ensures { result ≡ frames_in max_entered words.now 0 }
{
    let mut fs = [NO_FRAME; MAX_ENTERED];
    for (i, f) in fs.iter_mut().enumerate() {
        *f = frame_in(words, RECORDS_AT + RECORD_WORDS * i);
    }
    fs
}

// One over the most, which every call refuses.
const NO_DEPTH: usize = MAX_ENTERED + 1;

// The depth; `NO_DEPTH` where the convention's code or CR cannot be.
#[tactic(auto, unfolding(frame_word_layout::specs::Words::depth_in, frame_word_layout::specs::Words::is_machine))]
fn depth_in(words: &[u64]) -> usize
    requires { length words.now ≡ machine_words }
    ensures { result ≡ depth_in words.now }
{
    if Convention::try_from(words[0]).is_err() || 4294967295 < words[CR_AT] {
        return NO_DEPTH;
    }
    words[DEPTH_AT] as usize
}

// The state that a machine's words are read as.
pub fn state_in(words: &[u64]) -> State
    requires { length words.now ≡ machine_words }
    ensures { result ≡ state_in words.now }
{
    // A code that is no convention's is not accepted by `depth_in`.
    let convention = Convention::try_from(words[0]).unwrap_or(Convention::Z);
    let depth = depth_in(words);
    let registers = registers_in(words, REGISTERS_AT);
    let frames = frames_in(words);
    State {
        convention,
        base: words[1],
        size: words[2] as usize,
        depth,
        registers,
        frames,
    }
}

// ---- writing

// The 32 registers of a bank over the words from `at` on.
fn put_bank(words: &mut [u64], at: usize, bank: [u64; 32])
    requires { at + 32 ≤ length words.old }
    ensures { (words.new ≡ splice words.old at bank) × (length bank ≡ 32) }
{
    copy(words, at, &bank, 0, 32);
}

// The registers over their words.
pub fn put_registers(words: &mut [u64], r: Registers)
    requires { length words.old ≡ machine_words }
    ensures { (words.new ≡ with_registers words.old r) × (length (register_words r) ≡ registers_words) }
{
    put_bank(words, REGISTERS_AT, r.gpr);
    put_bank(words, FLOATING_AT, r.fpr);
    words[LR_AT] = r.lr;
    words[CR_AT] = r.cr as u64;
}

// The record i.
fn put_frame(words: &mut [u64], i: usize, f: Frame)
    requires { (length words.old ≡ machine_words) × (i < max_entered) }
    ensures { words.new ≡ with_frame words.old i f }
{
    let at = RECORDS_AT + RECORD_WORDS * i;
    words[at] = f.first_gpr as u64;
    words[at + 1] = f.first_fpr as u64;
    words[at + 2] = u64::from(f.saves_cr);
    words[at + 3] = f.locals as u64;
    words[at + 4] = f.outgoing as u64;
    words[at + 5] = u64::from(f.leaf);
}

// All 32 records.
fn put_frames(words: &mut [u64], fs: [Frame; MAX_ENTERED])
    requires { length words.old ≡ machine_words }
    ensures { (words.new ≡ splice words.old records_at (frames_words fs)) × (length fs ≡ 32) }
{
    for (i, f) in fs.iter().enumerate() {
        put_frame(words, i, *f);
    }
}

// All words of a state.
pub fn put_state(words: &mut [u64], s: State)
    requires { length words.old ≡ machine_words }
    ensures { words.new ≡ state_words s }
{
    words[0] = u64::from(s.convention);
    words[1] = s.base;
    words[2] = s.size as u64;
    words[DEPTH_AT] = s.depth as u64;
    put_registers(words, s.registers);
    put_frames(words, s.frames);
}

// What an enter or a leave changes: the depth, the registers, and the record i.
pub fn put_changed(words: &mut [u64], s: State, i: usize)
    requires { (length words.old ≡ machine_words) × (i < max_entered) }
    ensures { words.new ≡ changed words.old s i }
{
    words[DEPTH_AT] = s.depth as u64;
    put_registers(words, s.registers);
    put_frame(words, i, s.frames[i]);
}
