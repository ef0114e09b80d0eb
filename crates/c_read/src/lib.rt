// The surface for C and Rust, which include/flakuzhen.h declares: reading.
#![tactic(auto)]

ghost use Rattle.std.specs.Prelude.{◌≡◌};
ghost use Rattle.call_slots.specs.Buffers.{buffers};
ghost use Rattle.call_read.specs.Read.{read_lengths, read_answer, read_values};
ghost use Rattle.c_call_answers.specs.Calls.{call_answer};

use c_answers::Answer;

#[unsafe(no_mangle)]
pub extern "C" fn fz_read(
    sig: &[u8],
    values: &mut [u8],
    image: &[u8],
    area: &[u8],
    copies: &[u8],
    base: u64,
) -> Answer
    ensures value { result ≡ call_answer (read_answer sig.now (read_lengths values.old image.now area.now) base (buffers image.now area.now copies.now)) }
    ensures values_after { values.new ≡ read_values sig.now base (read_answer sig.now (read_lengths values.old image.now area.now) base (buffers image.now area.now copies.now)) (buffers image.now area.now copies.now) values.old }
{
    let a = call_read::read(sig, values, image, area, copies, base);
    c_call_answers::answer_of(a)
}
