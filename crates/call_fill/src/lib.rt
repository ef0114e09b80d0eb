// Filling: the values of a call's arguments are put where its signature's plan says, unless a buffer is too small or its base unfit.
#![tactic(auto)]

ghost use Rattle.std.specs.Prelude.{◌≡◌, [], length};
ghost use Rattle.sig_signatures.specs.Helpers.{RoomFor};
ghost use Rattle.call_slots.specs.Buffers.{buffers, put_all};
ghost use Rattle.call_slots.specs.Placements.{slots_of_all, hidden_slots};
ghost use Rattle.call_slots.specs.Refusals.{first_of};
ghost use Rattle.base_conventions.specs.Numbers.{word_bytes};
ghost use Rattle.plan_places.specs.Spots.{image_bytes};
ghost use Rattle.call_slots.specs.Helpers.{sizes_of};
ghost use Rattle.call_marshal.specs.Helpers.{CanPut};
ghost use Rattle.call_kept.specs.Helpers.{row_length, kept_all, KeptEach};
ghost use Rattle.call_arguments.specs.Helpers.{HeadIs, NoneLeft};
ghost use Rattle.call_fill.specs.Fill.{bad_copies, high_address, fill_tests, fill_answer, fill_buffers, fill_lengths};
ghost use Rattle.call_fill.specs.Helpers.{address_places};

use base_conventions::Convention;
use call_kept::ROW;
use call_slots::{CallError, CallRefusal};
use plan_places::{CallRules, IMAGE_BYTES};
use sig_signatures::{FEW_ARGUMENTS, FEW_BYTES, Head, MAX_ARGUMENTS};
use sig_types::ValueType;

// The lengths of the lent buffers.
#[derive(Clone, Copy)]
pub struct FillLengths {
    pub values: usize,
    pub image: usize,
    pub area: usize,
    pub copies: usize,
}

// All arguments that are kept, left to right.
fn put_arguments(
    image: &mut [u8],
    area: &mut [u8],
    copies: &mut [u8],
    rules: CallRules,
    convention: Convention,
    count: usize,
    kept: &[u16],
    values: &[u8],
    base: u64,
)
    requires { KeptEach (CanPut rules base (length image.old) (length area.old) (length copies.old)) convention kept.now count × (sizes_of (kept_all convention kept.now count) ≡ length values.now) }
    ensures { buffers image.new area.new copies.new ≡ put_all (slots_of_all rules base (kept_all convention kept.now count) values.now) (buffers image.old area.old copies.old) }
{
    let mut v: usize = 0;
    for i in 0..count {
        let t = call_kept::type_at(kept, i);
        let s = call_kept::span_at(kept, i);
        let size = sig_types::size_of(convention, t);
        let to = v + size;
        call_marshal::put_argument(image, area, copies, rules, t, s, &values[v..to], base);
        v = to;
    }
}

// The hidden address of a result in the first general register of its convention, a word, where there is one.
fn put_hidden(image: &mut [u8], c: Convention, hidden: bool, address: u64)
    requires { length image.old ≡ image_bytes }
    ensures { buffers image.new [] [] ≡ put_all (hidden_slots (word_bytes c) (address_places c hidden) address) (buffers image.old [] []) }
{
    if hidden {
        let k = both_abi::cursor_of(c);
        let at = 8 * (k.general as usize);
        let word = base_conventions::word_bytes(c);
        base_words::put_number(&mut image[at..], 8, base_words::zero_extend(address, word));
    }
}

// Whether copies that end at e can't stand in a copy buffer of n bytes at its base.
fn bad_copies(e: usize, n: usize, base: u64) -> bool
    ensures { result ≡ bad_copies e n base }
{
    if e == 0 {
        return false;
    }
    if n < e {
        return true;
    }
    if base % 8 != 0 {
        return true;
    }
    u64::MAX - base < e as u64
}

// Whether a hidden address is needed that a word has no room for.
fn high_address(c: Convention, hidden: bool, address: u64) -> bool
    ensures { result ≡ high_address (word_bytes c) (address_places c hidden) address }
{
    hidden && base_words::zero_extend(address, base_conventions::word_bytes(c)) < address
}

// Whether the buffers have the lengths that a plan asks for, and the hidden address is not too high.
fn tested(
    have: FillLengths,
    values: usize,
    area: usize,
    copies: usize,
    base: u64,
    high: bool,
) -> Result<(), CallError>
    ensures { result ≡ first_of (fill_tests have values area copies base high) }
{
    if have.image != IMAGE_BYTES {
        return Err(CallError::Refused(CallRefusal::ImageSize));
    }
    if have.values != values {
        return Err(CallError::Refused(CallRefusal::ValuesSize));
    }
    if have.area < area {
        return Err(CallError::Refused(CallRefusal::AreaTooShort));
    }
    if bad_copies(copies, have.copies, base) {
        return Err(CallError::Refused(CallRefusal::BadCopies));
    }
    if high {
        return Err(CallError::Refused(CallRefusal::BadCopies));
    }
    Ok(())
}

// A call without arguments, what stands before them being read: nothing is kept, and only the hidden address is put.
fn fill_none(
    sig: &[u8],
    values: &[u8],
    image: &mut [u8],
    area: &mut [u8],
    copies: &mut [u8],
    base: u64,
    address: u64,
    head: Head,
) -> Result<(), CallError>
    requires { NoneLeft sig.now head.convention head.result head.end head.earlier }
    ensures value { result ≡ fill_answer sig.now (fill_lengths values.now image.old area.old copies.old) base address }
    ensures copies_after { buffers image.new area.new copies.new ≡ fill_buffers sig.now values.now base address result (buffers image.old area.old copies.old) }
{
    let m = call_arguments::measure_none(sig, head);
    m.outcome?;
    let hidden = plan_planning::hidden_in(head.convention, head.result);
    let high = high_address(head.convention, hidden, address);
    let have = FillLengths {
        values: values.len(),
        image: image.len(),
        area: area.len(),
        copies: copies.len(),
    };
    tested(have, m.values, m.area, m.copies, base, high)?;
    put_hidden(image, head.convention, hidden, address);
    Ok(())
}

// A call with arguments, which are kept until all tests are made.
fn fill_part(
    sig: &[u8],
    values: &[u8],
    image: &mut [u8],
    area: &mut [u8],
    copies: &mut [u8],
    base: u64,
    address: u64,
    head: Head,
    kept: &mut [u16],
) -> Result<(), CallError>
    requires { HeadIs sig.now head.convention head.result head.ellipsis head.at head.end head.earlier × RoomFor row_length head.at head.end (length kept.old) }
    ensures value { result ≡ fill_answer sig.now (fill_lengths values.now image.old area.old copies.old) base address }
    ensures copies_after { buffers image.new area.new copies.new ≡ fill_buffers sig.now values.now base address result (buffers image.old area.old copies.old) }
{
    let p = call_arguments::keep_call(sig, head, kept);
    let m = p.sizes;
    m.outcome?;
    let hidden = plan_planning::hidden_in(head.convention, head.result);
    let high = high_address(head.convention, hidden, address);
    let have = FillLengths {
        values: values.len(),
        image: image.len(),
        area: area.len(),
        copies: copies.len(),
    };
    tested(have, m.values, m.area, m.copies, base, high)?;
    let rules = call_arguments::rules_in(head.convention, head.ellipsis);
    put_hidden(image, head.convention, hidden, address);
    put_arguments(
        image,
        area,
        copies,
        rules,
        head.convention,
        p.count,
        kept,
        values,
        base,
    );
    Ok(())
}

// Puts the values of a call's arguments in the register image, the parameter area and the copies, and the hidden address of a result
// in its register. Takes any bytes as signature, and buffers of any lengths.
pub fn fill(
    sig: &[u8],
    values: &[u8],
    image: &mut [u8],
    area: &mut [u8],
    copies: &mut [u8],
    base: u64,
    hidden: u64,
) -> Result<(), CallError>
    ensures value { result ≡ fill_answer sig.now (fill_lengths values.now image.old area.old copies.old) base hidden }
    ensures copies_after { buffers image.new area.new copies.new ≡ fill_buffers sig.now values.now base hidden result (buffers image.old area.old copies.old) }
{
    let head = sig_head::read_head(sig)?;
    if head.at == head.end {
        return fill_none(sig, values, image, area, copies, base, hidden, head);
    }
    if head.end - head.at <= FEW_BYTES {
        let mut few = [0u16; ROW * FEW_ARGUMENTS];
        return fill_part(
            sig, values, image, area, copies, base, hidden, head, &mut few,
        );
    }
    let mut many = [0u16; ROW * MAX_ARGUMENTS];
    fill_part(
        sig, values, image, area, copies, base, hidden, head, &mut many,
    )
}
