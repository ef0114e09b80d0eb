// The fresh starts of the frame machine for C and Rust: `fz_machine` and `fz_registers` are words in the layout of the crate frame_word_layout. A refused start leaves
// the convention, the registers as handed in and all else 0.
#![tactic(auto)]

ghost use Rattle.std.specs.Prelude.{◌≡◌, length};
ghost use Rattle.base_conventions.specs.declared.Convention.TheVariants.{Ppc64, Z, Aix, Ppc64b};
ghost use Rattle.frame_machine.specs.Machine.{start_outcome, start_memory};
ghost use Rattle.frame_word_layout.specs.Words.{registers_in};
ghost use Rattle.frame_word_layout.specs.Calls.{start_words};
ghost use Rattle.c_frame_answers.specs.Frames.{frame_answer};

use base_conventions::Convention;
use c_answers::Answer;
use frame_word_layout::{MACHINE_WORDS, REGISTERS_WORDS};

// Of `registers`' CR an accepted start takes the low 32 bits.
#[unsafe(no_mangle)]
pub extern "C" fn fz_start_ppc64(
    machine: &mut [u64; MACHINE_WORDS],
    registers: &[u64; REGISTERS_WORDS],
    base: u64,
    memory: &mut [u8],
) -> Answer
    ensures value { result ≡ frame_answer (start_outcome Ppc64 base (length memory.old) (registers_in registers.now 0)).answer }
    ensures machine_after { machine.new ≡ start_words Ppc64 registers.now base (length memory.old) }
    ensures memory_after { memory.new ≡ start_memory Ppc64 base memory.old }
{
    let a = frame_word_starts::start(Convention::Ppc64, machine, registers, base, memory);
    c_frame_answers::answer_of(a)
}

#[unsafe(no_mangle)]
pub extern "C" fn fz_start_z(
    machine: &mut [u64; MACHINE_WORDS],
    registers: &[u64; REGISTERS_WORDS],
    base: u64,
    memory: &mut [u8],
) -> Answer
    ensures value { result ≡ frame_answer (start_outcome Z base (length memory.old) (registers_in registers.now 0)).answer }
    ensures machine_after { machine.new ≡ start_words Z registers.now base (length memory.old) }
    ensures memory_after { memory.new ≡ start_memory Z base memory.old }
{
    let a = frame_word_starts::start(Convention::Z, machine, registers, base, memory);
    c_frame_answers::answer_of(a)
}

// Of the general registers and LR an accepted start takes the low 32 bits.
#[unsafe(no_mangle)]
pub extern "C" fn fz_start_aix(
    machine: &mut [u64; MACHINE_WORDS],
    registers: &[u64; REGISTERS_WORDS],
    base: u64,
    memory: &mut [u8],
) -> Answer
    ensures value { result ≡ frame_answer (start_outcome Aix base (length memory.old) (registers_in registers.now 0)).answer }
    ensures machine_after { machine.new ≡ start_words Aix registers.now base (length memory.old) }
    ensures memory_after { memory.new ≡ start_memory Aix base memory.old }
{
    let a = frame_word_starts::start(Convention::Aix, machine, registers, base, memory);
    c_frame_answers::answer_of(a)
}

// As fz_start_ppc64's, but for the convention's code.
#[unsafe(no_mangle)]
pub extern "C" fn fz_start_ppc64b(
    machine: &mut [u64; MACHINE_WORDS],
    registers: &[u64; REGISTERS_WORDS],
    base: u64,
    memory: &mut [u8],
) -> Answer
    ensures value { result ≡ frame_answer (start_outcome Ppc64b base (length memory.old) (registers_in registers.now 0)).answer }
    ensures machine_after { machine.new ≡ start_words Ppc64b registers.now base (length memory.old) }
    ensures memory_after { memory.new ≡ start_memory Ppc64b base memory.old }
{
    let a = frame_word_starts::start(Convention::Ppc64b, machine, registers, base, memory);
    c_frame_answers::answer_of(a)
}
