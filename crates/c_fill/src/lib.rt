// The surface for C and Rust, which include/flakuzhen.h declares: filling. It and reading are objects of their own, in which what each
// calls once is compiled in line.
#![tactic(auto)]

ghost use Rattle.std.specs.Prelude.{◌≡◌};
ghost use Rattle.call_slots.specs.Buffers.{buffers};
ghost use Rattle.call_fill.specs.Fill.{fill_lengths, fill_answer, fill_buffers};
ghost use Rattle.c_call_answers.specs.Calls.{call_answer};

use c_answers::Answer;

#[unsafe(no_mangle)]
pub extern "C" fn fz_fill(
    sig: &[u8],
    values: &[u8],
    image: &mut [u8],
    area: &mut [u8],
    copies: &mut [u8],
    base: u64,
    hidden: u64,
) -> Answer
    ensures value { result ≡ call_answer (fill_answer sig.now (fill_lengths values.now image.old area.old copies.old) base hidden) }
    ensures copies_after { buffers image.new area.new copies.new ≡ fill_buffers sig.now values.now base hidden (fill_answer sig.now (fill_lengths values.now image.old area.old copies.old) base hidden) (buffers image.old area.old copies.old) }
{
    let a = call_fill::fill(sig, values, image, area, copies, base, hidden);
    c_call_answers::answer_of(a)
}
