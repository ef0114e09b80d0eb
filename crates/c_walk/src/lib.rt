// The walker for C and Rust, which include/flakuzhen.h declares: `fz_walker` is six words, in the layout of crates/call_walker/specs/Words.antt. A refused call leaves the walker
// and the value buffer as they were.
#![tactic(auto)]

ghost use Rattle.std.specs.Prelude.{◌≡◌};
ghost use Rattle.sig_signatures.specs.Read.{signature_of};
ghost use Rattle.call_slots.specs.Buffers.{buffers};
ghost use Rattle.call_walker.specs.Words.{walk_start_answer, walker_start_words, walker_step};
ghost use Rattle.c_walk.specs.Walk.{walk_answer};

use c_answers::Answer;
use call_walker::{WALKER_WORDS, WalkerAnswer};

fn answer_of(a: WalkerAnswer) -> Answer
    ensures { result ≡ walk_answer a }
{
    match a {
        WalkerAnswer::Lost => Answer {
            number: 23,
            place: 0,
            items: 0,
        },
        WalkerAnswer::Called(a) => c_call_answers::answer_of(a),
    }
}

#[unsafe(no_mangle)]
pub extern "C" fn fz_walk_start(walker: &mut [u64; WALKER_WORDS], sig: &[u8]) -> Answer
    ensures value { result ≡ walk_answer (walk_start_answer (signature_of sig.now)) }
    ensures walker_after { walker.new ≡ walker_start_words (signature_of sig.now) walker.old }
{
    let a = call_walking::start(walker, sig);
    answer_of(a)
}

#[unsafe(no_mangle)]
pub extern "C" fn fz_walk(
    walker: &mut [u64; WALKER_WORDS],
    item: &[u8],
    value: &mut [u8],
    image: &[u8],
    area: &[u8],
    copies: &[u8],
    base: u64,
) -> Answer
    ensures value { result ≡ walk_answer (walker_step walker.old item.now base (buffers image.now area.now copies.now) value.old).answer }
    ensures walker_after { walker.new ≡ (walker_step walker.old item.now base (buffers image.now area.now copies.now) value.old).words }
    ensures value_after { value.new ≡ (walker_step walker.old item.now base (buffers image.now area.now copies.now) value.old).value }
{
    let a = call_walking::walk(walker, item, value, image, area, copies, base);
    answer_of(a)
}
