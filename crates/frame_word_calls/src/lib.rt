// The machine's calls over a state in 64-bit words, as a caller in C lends it. A call reads the words into a state, makes the machine's own call, and where that is
// accepted puts back the words that the call may change.
#![tactic(auto)]

ghost use Rattle.std.specs.Prelude.{◌≡◌, length};
ghost use Rattle.frame_machine.specs.Machine.{enter_outcome, enter_memory, write_register_outcome, write_memory_outcome, write_memory_memory, leave_outcome};
ghost use Rattle.frame_word_layout.specs.Words.{frame_in, state_in};
ghost use Rattle.frame_word_layout.specs.Calls.{enter_words, write_register_words, leave_words};

use frame_machine::FrameRefusal;
use frame_word_layout::{MACHINE_WORDS, RECORD_WORDS};

// Enters a frame.
pub fn enter(
    words: &mut [u64; MACHINE_WORDS],
    request: &[u64; RECORD_WORDS],
    memory: &mut [u8],
) -> Result<(), FrameRefusal>
    ensures value { result ≡ (enter_outcome (state_in words.old) (length memory.old) (frame_in request.now 0)).answer }
    ensures words_after { words.new ≡ enter_words words.old (length memory.old) request.now }
    ensures memory_after { memory.new ≡ enter_memory (state_in words.old) memory.old (frame_in request.now 0) }
{
    let s = frame_state_words::state_in(words);
    let f = frame_state_words::frame_in(request, 0);
    let o = frame_calls::enter(s, memory, f);
    o.answer?;
    frame_state_words::put_changed(words, o.state, s.depth);
    Ok(())
}

// Writes a value to a register: bank 0 general, 1 floating, 2 LR, 3 a field of CR.
pub fn write_register(
    words: &mut [u64; MACHINE_WORDS],
    bank: u64,
    number: u64,
    value: u64,
    memory: &[u8],
) -> Result<(), FrameRefusal>
    ensures value { result ≡ (write_register_outcome (state_in words.old) (length memory.now) bank number value).answer }
    ensures words_after { words.new ≡ write_register_words words.old (length memory.now) bank number value }
{
    let s = frame_state_words::state_in(words);
    let o = frame_calls::write_register(s, memory, bank, number, value);
    o.answer?;
    frame_state_words::put_registers(words, o.state.registers);
    Ok(())
}

// Writes bytes to the memory at an address.
pub fn write_memory(
    words: &[u64; MACHINE_WORDS],
    address: u64,
    bytes: &[u8],
    memory: &mut [u8],
) -> Result<(), FrameRefusal>
    ensures value { result ≡ (write_memory_outcome (state_in words.now) (length memory.old) address (length bytes.now)).answer }
    ensures memory_after { memory.new ≡ write_memory_memory (state_in words.now) memory.old address bytes.now }
{
    let s = frame_state_words::state_in(words);
    frame_calls::write_memory(s, memory, address, bytes).answer
}

// Leaves the frame entered last.
pub fn leave(words: &mut [u64; MACHINE_WORDS], memory: &[u8]) -> Result<(), FrameRefusal>
    ensures value { result ≡ (leave_outcome (state_in words.old) memory.now).answer }
    ensures words_after { words.new ≡ leave_words words.old memory.now }
{
    let s = frame_state_words::state_in(words);
    let o = frame_calls::leave(s, memory);
    o.answer?;
    frame_state_words::put_changed(words, o.state, o.state.depth);
    Ok(())
}
