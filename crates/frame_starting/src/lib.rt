// The fresh machine of any convention, by the rules of its frames.
#![tactic(auto)]

ghost use Rattle.std.specs.Prelude.{◌≡◌, ◌+◌, ◌%◌, length};
ghost use Rattle.frame_rules.specs.Rules.{rules};
ghost use Rattle.frame_rules.specs.Frames.{lowered, cleared};
ghost use Rattle.frame_machine.specs.Machine.{start_outcome, start_memory};

use base_conventions::Convention;
use frame_machine::{FrameOutcome, FrameRefusal, MAX_ENTERED, State};
use frame_rules::{FrameRules, NO_FRAME, Registers};

// A number less its high half, where a word has less than 64 bits.
fn low(m: u64, x: u64) -> u64
    ensures { result ≡ x % (m + 1) }
{
    if x <= m { x } else { x % (m + 1) }
}

// All 32 numbers less their high halves.
fn lower(m: u64, mut xs: [u64; 32]) -> [u64; 32]
    ensures { result ≡ lowered m xs 32 }
{
    for x in xs.iter_mut() {
        *x = low(m, *x);
    }
    xs
}

// The registers less the high halves of the general ones and of LR.
// Never inlined: its stack is given back before the next function's begins, so a call keeps to the stack that the header states.
#[inline(never)]
#[tactic(auto, unfolding(frame_rules::specs::Frames::cleared))]
fn clear(k: FrameRules, r: Registers) -> Registers
    ensures { result ≡ cleared k r }
{
    let gpr = lower(k.limit, r.gpr);
    let fpr = r.fpr;
    Registers {
        gpr,
        fpr,
        lr: low(k.limit, r.lr),
        cr: r.cr,
    }
}

// A machine on this memory with these registers: the stack pointer set, a zero word at it. A refused start hands back the convention and the registers
// as they came, with base, size, depth and records 0, and leaves the memory.
pub fn start(
    k: FrameRules,
    c: Convention,
    memory: &mut [u8],
    base: u64,
    registers: Registers,
) -> FrameOutcome
    requires { k ≡ rules c }
    ensures value { result ≡ start_outcome c base (length memory.old) registers }
    ensures memory_after { memory.new ≡ start_memory c base memory.old }
{
    let n = memory.len();
    let frames = [NO_FRAME; MAX_ENTERED];
    if !frame_bounds::memory_ok(k, base, n) {
        return FrameOutcome {
            answer: Err(FrameRefusal::BadMemory),
            state: State {
                convention: c,
                base: 0,
                size: 0,
                depth: 0,
                registers,
                frames,
            },
        };
    }
    let at = n - k.room;
    let handed = clear(k, registers);
    let r = frame_rules::with_pointer(k, handed, base + at as u64);
    base_words::store(memory, at, k.word, 0);
    FrameOutcome {
        answer: Ok(()),
        state: State {
            convention: c,
            base,
            size: n,
            depth: 0,
            registers: r,
            frames,
        },
    }
}
