// Whether a memory lies where it may, which refusal 16 asks at the start and 23 of every state, and whether registers fit their words.
#![tactic(auto)]

ghost use Rattle.std.specs.Prelude.{◌≡◌};
ghost use Rattle.frame_rules.specs.Helpers.{LawfulFrames};
ghost use Rattle.frame_rules.specs.Frames.{all_within, ok_registers};
ghost use Rattle.frame_machine.specs.Machine.{ok_memory};

use frame_rules::{FrameRules, Registers};

// The least and the largest memory of a machine, in bytes.
const LEAST_MEMORY: usize = 256;

const MAX_MEMORY: usize = 65536;

// Are a memory's base and length in range? (Refusal 16.)
#[tactic(auto, unfolding(frame_machine::specs::Machine::ok_memory))]
pub fn memory_ok(k: FrameRules, base: u64, n: usize) -> bool
    requires { LawfulFrames k }
    ensures { result ≡ ok_memory k base n }
{
    n % 16 == 0
        && LEAST_MEMORY <= n
        && n <= MAX_MEMORY
        && base % 16 == 0
        && base <= k.limit - n as u64
        && k.room + k.floor <= n
}

// Are all 32 numbers at most m?
fn all_within(m: u64, xs: [u64; 32]) -> bool
    ensures { result ≡ all_within m xs 32 }
{
    xs.iter().all(|x| *x <= m)
}

// Do the general registers and LR fit a word?
#[tactic(auto, unfolding(frame_rules::specs::Frames::ok_registers))]
pub fn registers_ok(k: FrameRules, r: Registers) -> bool
    ensures { result ≡ ok_registers k r }
{
    all_within(k.limit, r.gpr) && r.lr <= k.limit
}
