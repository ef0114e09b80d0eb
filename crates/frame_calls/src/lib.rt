// Entering, writing and leaving frames; first what an accepted enter and an accepted leave do to the state and to the memory. A machine's state goes in by value and comes back; its memory is lent. A refused
// call changes nothing.
#![tactic(auto)]

ghost use Rattle.std.specs.Prelude.{◌≡◌, length};
ghost use Rattle.frame_rules.specs.Helpers.{LawfulFrames};
ghost use Rattle.frame_machine.specs.Machine.{entered, entered_memory, left, enter_outcome, enter_memory, write_register_outcome, write_memory_outcome, write_memory_memory, leave_outcome};
ghost use Rattle.frame_machine.specs.Helpers.{Sound, CanEnter, CanLeave};

use frame_machine::{FrameOutcome, State};
use frame_rules::{Frame, FrameRules, NO_FRAME};

// The state with the frame entered.
pub fn push(k: FrameRules, s: State, f: Frame) -> State
    requires { (LawfulFrames k) × (CanEnter k s f) }
    ensures { result ≡ entered k s f }
{
    let p = frame_state_checks::stack_pointer(k, s);
    let z = frame_requests::frame_size(k, f);
    let r = frame_rules::with_pointer(k, s.registers, p - z as u64);
    let mut t = s;
    t.registers = r;
    t.frames[s.depth] = f;
    t.depth = s.depth + 1;
    t
}

// The back chain at the new stack pointer, which a leaf has not, and the saves.
pub fn save_frame(memory: &mut [u8], k: FrameRules, s: State, f: Frame)
    requires { (LawfulFrames k) × (Sound k s (length memory.old)) × (CanEnter k s f) }
    ensures { memory.new ≡ entered_memory k s memory.old f }
{
    let p = frame_state_checks::stack_pointer(k, s);
    let z = frame_requests::frame_size(k, f);
    let o = (p - s.base) as usize;
    base_words::store(memory, o - z, frame_requests::chain_width(k, f), p);
    frame_preserving::save_registers(memory, k, f, s.registers, o);
}

// The state with the frame left.
pub fn pop(k: FrameRules, s: State, memory: &[u8]) -> State
    requires { (LawfulFrames k) × (CanLeave k s (length memory.now)) }
    ensures { result ≡ left k s memory.now }
{
    let f = frame_state_checks::top_frame(k, s);
    let z = frame_requests::frame_size(k, f);
    let p = frame_state_checks::stack_pointer(k, s);
    let o = (p - s.base) as usize;
    let d = s.depth - 1;
    let r = frame_preserving::restore(memory, k, f, o + z, p + z as u64, s.registers);
    let mut popped = s;
    popped.registers = r;
    popped.depth = d;
    popped.frames[d] = NO_FRAME;
    popped
}

// Enters a frame.
pub fn enter(s: State, memory: &mut [u8], f: Frame) -> FrameOutcome
    ensures value { result ≡ enter_outcome s (length memory.old) f }
    ensures memory_after { memory.new ≡ enter_memory s memory.old f }
{
    let k = both_abi::frame_rules_of(s.convention);
    match frame_call_checks::judge_enter(k, s, memory.len(), f) {
        Err(r) => FrameOutcome {
            answer: Err(r),
            state: s,
        },
        Ok(()) => {
            let t = push(k, s, f);
            save_frame(memory, k, s, f);
            FrameOutcome {
                answer: Ok(()),
                state: t,
            }
        }
    }
}

// Writes a value to a register: bank 0 general, 1 floating, 2 LR (whatever the number), 3 a field of CR.
pub fn write_register(s: State, memory: &[u8], bank: u64, number: u64, value: u64) -> FrameOutcome
    ensures { result ≡ write_register_outcome s (length memory.now) bank number value }
{
    let k = both_abi::frame_rules_of(s.convention);
    match frame_call_checks::judge_write_register(k, s, memory.len(), bank, number, value) {
        Err(r) => FrameOutcome {
            answer: Err(r),
            state: s,
        },
        Ok(()) => {
            let b = frame_writing::bank_of(bank);
            let registers = s.registers;
            let r = frame_writing::with_register(registers, b, number as usize, value);
            FrameOutcome {
                answer: Ok(()),
                state: State { registers: r, ..s },
            }
        }
    }
}

// Writes bytes to the memory at an address.
pub fn write_memory(s: State, memory: &mut [u8], address: u64, bytes: &[u8]) -> FrameOutcome
    ensures value { result ≡ write_memory_outcome s (length memory.old) address (length bytes.now) }
    ensures memory_after { memory.new ≡ write_memory_memory s memory.old address bytes.now }
{
    let k = both_abi::frame_rules_of(s.convention);
    match frame_call_checks::judge_write_memory(k, s, memory.len(), address, bytes.len()) {
        Err(r) => FrameOutcome {
            answer: Err(r),
            state: s,
        },
        Ok(()) => {
            let at = (address - s.base) as usize;
            base_words::put(&mut memory[at..], bytes);
            FrameOutcome {
                answer: Ok(()),
                state: s,
            }
        }
    }
}

// Leaves the frame entered last.
pub fn leave(s: State, memory: &[u8]) -> FrameOutcome
    ensures { result ≡ leave_outcome s memory.now }
{
    let k = both_abi::frame_rules_of(s.convention);
    match frame_call_checks::judge_leave(k, s, memory) {
        Err(r) => FrameOutcome {
            answer: Err(r),
            state: s,
        },
        Ok(()) => FrameOutcome {
            answer: Ok(()),
            state: pop(k, s, memory),
        },
    }
}
