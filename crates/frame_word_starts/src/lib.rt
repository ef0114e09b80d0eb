// The fresh starts over a state in 64-bit words, as a caller in C lends it: all the words are written, also where a start is refused.
#![tactic(auto)]

ghost use Rattle.std.specs.Prelude.{◌≡◌, length, get_or, set, ◌+◌};
ghost use Rattle.frame_machine.specs.Answers.{settle};
ghost use Rattle.frame_machine.specs.Machine.{start_outcome, start_memory};
ghost use Rattle.frame_word_layout.specs.Words.{registers_at, cr_in, registers_in, state_words};
ghost use Rattle.frame_word_layout.specs.Calls.{start_words};

use base_conventions::Convention;
use frame_machine::{FrameOutcome, FrameRefusal};
use frame_word_layout::{CR_AT, CR_IN, MACHINE_WORDS, REGISTERS_WORDS};

// Puts a start's state in the words; a refused one's CR as it came, all 64 bits.
fn put_start(
    words: &mut [u64; MACHINE_WORDS],
    registers: &[u64; REGISTERS_WORDS],
    o: FrameOutcome,
) -> Result<(), FrameRefusal>
    ensures value { result ≡ o.answer }
    ensures words_after { words.new ≡ settle o.answer (state_words o.state) (set (state_words o.state) (registers_at + cr_in) (get_or registers.now cr_in 0)) }
{
    frame_state_words::put_state(words, o.state);
    if o.answer.is_err() {
        words[CR_AT] = registers[CR_IN];
    }
    o.answer
}

// The fresh start of a convention: all the words are written, also where it is refused.
pub fn start(
    c: Convention,
    words: &mut [u64; MACHINE_WORDS],
    registers: &[u64; REGISTERS_WORDS],
    base: u64,
    memory: &mut [u8],
) -> Result<(), FrameRefusal>
    ensures value { result ≡ (start_outcome c base (length memory.old) (registers_in registers.now 0)).answer }
    ensures words_after { words.new ≡ start_words c registers.now base (length memory.old) }
    ensures memory_after { memory.new ≡ start_memory c base memory.old }
{
    let handed = frame_state_words::registers_in(registers, 0);
    let o = both_abi::start(c, memory, base, handed);
    put_start(words, registers, o)
}
