// The surface for C and Rust on stored plans: how long a plan's bytes are, writing them, checking them against a fresh signature, and filling after that
// check. Each function calls one of the crates below and lays its answer out in 64-bit words.
#![tactic(auto)]

ghost use Rattle.std.specs.Prelude.{◌≡◌, length};
ghost use Rattle.c_answers.specs.Answers.{answer_of};
ghost use Rattle.call_slots.specs.Buffers.{buffers};
ghost use Rattle.call_fill.specs.Fill.{fill_lengths};
ghost use Rattle.plan_stored.specs.Stored.{length_answer, store_answer, stored_buffer, check_answer};
ghost use Rattle.call_fill_stored.specs.FillStored.{stored_fill_answer, stored_fill_buffers};
ghost use Rattle.c_stored.specs.Stored.{stored_words, check_words, stored_fill_words};

use c_answers::Answer;
use call_fill_stored::StoredError;
use plan_stored::StoreRefusal;
use sig_items::Fault;

// `fz_stored` of include/flakuzhen.h.
#[repr(C)]
#[derive(Clone, Copy)]
pub struct Stored {
    pub answer: Answer,
    pub length: u64,
}

// A number and a place, and no count.
fn answer_of(number: u64, place: u64) -> Answer
    ensures { result ≡ answer_of number place }
{
    Answer {
        number,
        place,
        items: 0,
    }
}

#[tactic(auto, unfolding(crate::specs::Stored::stored_words))]
fn stored_words(a: Result<usize, StoreRefusal>) -> Stored
    ensures { result ≡ stored_words a }
{
    match a {
        Ok(n) => Stored {
            answer: answer_of(0, 0),
            length: n as u64,
        },
        Err(StoreRefusal::Unread(fault)) => Stored {
            answer: c_faults::fault_answer(fault),
            length: 0,
        },
        Err(StoreRefusal::TooShort) => Stored {
            answer: answer_of(33, 0),
            length: 0,
        },
    }
}

#[tactic(auto, unfolding(crate::specs::Stored::check_words))]
fn check_words(a: Result<Option<usize>, Fault>) -> Answer
    ensures { result ≡ check_words a }
{
    match a {
        Ok(None) => answer_of(0, 0),
        Err(fault) => c_faults::fault_answer(fault),
        Ok(Some(place)) => answer_of(27, place as u64),
    }
}

#[tactic(auto, unfolding(crate::specs::Stored::stored_fill_words))]
fn stored_fill_words(a: Result<(), StoredError>) -> Answer
    ensures { result ≡ stored_fill_words a }
{
    match a {
        Ok(()) => answer_of(0, 0),
        Err(StoredError::Call(e)) => c_call_answers::answer_of(Err(e)),
        Err(StoredError::Stale(place)) => answer_of(27, place as u64),
    }
}

#[unsafe(no_mangle)]
pub extern "C" fn fz_stored_length(sig: &[u8]) -> Stored
    ensures { result ≡ stored_words (length_answer sig.now) }
{
    let a = plan_stored::stored_length(sig);
    stored_words(a)
}

// The plan of a signature at the head of the stored bytes, where there is room for all of it.
#[unsafe(no_mangle)]
pub extern "C" fn fz_store_plan(sig: &[u8], stored: &mut [u8]) -> Stored
    ensures { (result ≡ stored_words (store_answer sig.now (length stored.old))) × (stored.new ≡ stored_buffer sig.now stored.old) }
{
    let a = plan_stored::store_plan(sig, stored);
    stored_words(a)
}

// Whether the stored bytes are what `fz_store_plan` would write for this signature.
#[unsafe(no_mangle)]
pub extern "C" fn fz_check_plan(stored: &[u8], sig: &[u8]) -> Answer
    ensures { result ≡ check_words (check_answer stored.now sig.now) }
{
    let a = plan_stored::check_plan(stored, sig);
    check_words(a)
}

// That check, and then plain filling.
#[unsafe(no_mangle)]
pub extern "C" fn fz_fill_stored(
    stored: &[u8],
    sig: &[u8],
    values: &[u8],
    image: &mut [u8],
    area: &mut [u8],
    copies: &mut [u8],
    base: u64,
    hidden: u64,
) -> Answer
    ensures value { result ≡ stored_fill_words (stored_fill_answer stored.now sig.now (fill_lengths values.now image.old area.old copies.old) base hidden) }
    ensures copies_after { buffers image.new area.new copies.new ≡ stored_fill_buffers stored.now sig.now values.now (fill_lengths values.now image.old area.old copies.old) base hidden (buffers image.old area.old copies.old) }
{
    let a = call_fill_stored::fill_stored(stored, sig, values, image, area, copies, base, hidden);
    stored_fill_words(a)
}
