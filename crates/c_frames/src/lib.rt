// The calls of the frame machine for C and Rust: `fz_machine` and `fz_frame` are words in the layout of the crate frame_word_layout. A refused call leaves the machine's
// words and the memory as they were.
#![tactic(auto)]

ghost use Rattle.std.specs.Prelude.{◌≡◌, length};
ghost use Rattle.frame_machine.specs.Machine.{enter_outcome, enter_memory, write_register_outcome, write_memory_outcome, write_memory_memory, leave_outcome};
ghost use Rattle.frame_word_layout.specs.Words.{frame_in, state_in};
ghost use Rattle.frame_word_layout.specs.Calls.{enter_words, write_register_words, leave_words};
ghost use Rattle.c_frame_answers.specs.Frames.{frame_answer};

use c_answers::Answer;
use frame_word_layout::{MACHINE_WORDS, RECORD_WORDS};

#[unsafe(no_mangle)]
pub extern "C" fn fz_enter(
    machine: &mut [u64; MACHINE_WORDS],
    request: &[u64; RECORD_WORDS],
    memory: &mut [u8],
) -> Answer
    ensures value { result ≡ frame_answer (enter_outcome (state_in machine.old) (length memory.old) (frame_in request.now 0)).answer }
    ensures machine_after { machine.new ≡ enter_words machine.old (length memory.old) request.now }
    ensures memory_after { memory.new ≡ enter_memory (state_in machine.old) memory.old (frame_in request.now 0) }
{
    let a = frame_word_calls::enter(machine, request, memory);
    c_frame_answers::answer_of(a)
}

// Bank 0 general, 1 floating, 2 LR, 3 a field of CR. The memory is only measured.
#[unsafe(no_mangle)]
pub extern "C" fn fz_write_register(
    machine: &mut [u64; MACHINE_WORDS],
    bank: u64,
    number: u64,
    value: u64,
    memory: &[u8],
) -> Answer
    ensures value { result ≡ frame_answer (write_register_outcome (state_in machine.old) (length memory.now) bank number value).answer }
    ensures machine_after { machine.new ≡ write_register_words machine.old (length memory.now) bank number value }
{
    let a = frame_word_calls::write_register(machine, bank, number, value, memory);
    c_frame_answers::answer_of(a)
}

#[unsafe(no_mangle)]
pub extern "C" fn fz_write_memory(
    machine: &[u64; MACHINE_WORDS],
    address: u64,
    bytes: &[u8],
    memory: &mut [u8],
) -> Answer
    ensures value { result ≡ frame_answer (write_memory_outcome (state_in machine.now) (length memory.old) address (length bytes.now)).answer }
    ensures memory_after { memory.new ≡ write_memory_memory (state_in machine.now) memory.old address bytes.now }
{
    let a = frame_word_calls::write_memory(machine, address, bytes, memory);
    c_frame_answers::answer_of(a)
}

#[unsafe(no_mangle)]
pub extern "C" fn fz_leave(machine: &mut [u64; MACHINE_WORDS], memory: &[u8]) -> Answer
    ensures value { result ≡ frame_answer (leave_outcome (state_in machine.old) memory.now).answer }
    ensures machine_after { machine.new ≡ leave_words machine.old memory.now }
{
    let a = frame_word_calls::leave(machine, memory);
    c_frame_answers::answer_of(a)
}
