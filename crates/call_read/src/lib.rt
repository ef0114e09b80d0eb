// Reading: the values of a call's arguments out of its registers, memory and copies. A first pass over the arguments finds the first
// that can't be read, and only then are the values taken, so that a refused reading leaves the value buffer as it was.
#![tactic(auto)]

ghost use Rattle.std.specs.Prelude.{◌≡◌, [], ◌≤◌, length, take};
ghost use Rattle.sig_signatures.specs.Helpers.{RoomFor};
ghost use Rattle.call_slots.specs.Buffers.{buffers};
ghost use Rattle.call_slots.specs.Placements.{placement};
ghost use Rattle.call_slots.specs.Refusals.{first_of};
ghost use Rattle.call_arguments.specs.Helpers.{HeadIs, NoneLeft};
ghost use Rattle.call_kept.specs.Helpers.{row_length, kept_all, KeptEach};
ghost use Rattle.call_unmarshal.specs.Helpers.{InBuffers};
ghost use Rattle.call_read.specs.Read.{in_copies, copy_answer, same_bytes, agrees, agree_answer, argument_answer, arguments_answer, read_tests, read_answer, read_values, read_lengths};
ghost use Rattle.call_read.specs.Helpers.{Compared, asks as asks_of, lengths_answer};

use base_conventions::Convention;
use call_kept::ROW;
use call_slots::{CallError, CallRefusal};
use plan_places::{CallRules, FPRS_AT, IMAGE_BYTES, Span};
use sig_signatures::{FEW_ARGUMENTS, FEW_BYTES, Head, MAX_ARGUMENTS};
use sig_types::ValueType;

// The lengths of the lent buffers that are tested.
#[derive(Clone, Copy)]
pub struct ReadLengths {
    pub values: usize,
    pub image: usize,
    pub area: usize,
}

// Whether n bytes at an address lie in a copy buffer of `length` bytes at its base.
fn in_copies(address: u64, base: u64, n: usize, length: usize) -> bool
    ensures { result ≡ in_copies address base n length }
{
    if address < base {
        return false;
    }
    if length < n {
        return false;
    }
    address - base <= (length - n) as u64
}

fn copy_answer(inside: bool) -> Result<(), CallError>
    ensures { result ≡ copy_answer inside }
{
    if inside {
        Ok(())
    } else {
        Err(CallError::Refused(CallRefusal::OutsideCopies))
    }
}

// Whether the first n bytes of a and of b are the same.
fn same_bytes(a: &[u8], b: &[u8], n: usize) -> bool
    requires { (n ≤ length a.now) × (n ≤ length b.now) }
    ensures { result ≡ same_bytes (take n a.now) (take n b.now) }
{
    for i in 0..n {
        if a[i] != b[i] {
            return false;
        }
    }
    true
}

// Whether a float's own bytes in general registers are those in its FPRs.
fn floats_agree(image: &[u8], r: CallRules, t: ValueType, n: usize, s: Span) -> bool
    requires { Compared r (placement t n s) (buffers image.now [] []) }
    ensures { result ≡ agrees r (placement t n s) (buffers image.now [] []) }
{
    let general = s.general;
    let floating = s.floating;
    let memory = s.memory;
    let word = plan_places::word_of(r);
    let count = general.count as usize;
    let held = word * count;
    let lo = call_slots::own_start(r, t, n, held + memory.length as usize);
    let m = n.min(held - lo);
    let mut own = [0u8; 16];
    call_registers::take_registers(&mut own, image, word, general.first as usize, count, lo, m);
    let mut value = [0u8; 16];
    let at = FPRS_AT + 8 * (floating.first as usize);
    call_unmarshal::take_float(
        &mut value,
        image,
        r,
        sig_types::equivalent_of(t),
        at,
        8 * (floating.count as usize),
    );
    same_bytes(&own, &value, m)
}

fn agree_answer(same: bool) -> Result<(), CallError>
    ensures { result ≡ agree_answer same }
{
    if same {
        Ok(())
    } else {
        Err(CallError::Refused(CallRefusal::FloatsDiffer))
    }
}

// Whether one argument can be read, of a type and its size. Most floats have no general registers, and then 14 is all that is asked.
pub fn argument_answer(
    image: &[u8],
    area: &[u8],
    copies: &[u8],
    r: CallRules,
    t: ValueType,
    n: usize,
    s: Span,
    base: u64,
) -> Result<(), CallError>
    requires { InBuffers r (length image.now) (length area.now) (placement t n s) }
    ensures { result ≡ argument_answer r base (placement t n s) (buffers image.now area.now copies.now) }
{
    let general = s.general;
    let floating = s.floating;
    let indirect = s.indirect;
    if 0 < floating.count {
        let x = base_words::load(image, FPRS_AT + 8 * (floating.first as usize), 8);
        call_slots::float_answer(r, sig_types::equivalent_of(t), x)?;
        if general.count == 0 {
            return Ok(());
        }
        return agree_answer(floats_agree(image, r, t, n, s));
    }
    if indirect {
        let address = call_unmarshal::word_at(image, area, s);
        return copy_answer(in_copies(address, base, n, copies.len()));
    }
    Ok(())
}

// Whether anything is asked of an argument before it is read. Of most nothing is, and then nobody need know their types.
fn asks(s: Span) -> bool
    ensures { result ≡ asks_of s }
{
    0 < s.floating.count || s.indirect
}

// The refusal of the first kept argument, left to right, that can't be read.
pub fn first_refusal(
    image: &[u8],
    area: &[u8],
    copies: &[u8],
    rules: CallRules,
    convention: Convention,
    count: usize,
    kept: &[u16],
    base: u64,
) -> Result<(), CallError>
    requires { KeptEach (InBuffers rules (length image.now) (length area.now)) convention kept.now count }
    ensures { result ≡ arguments_answer rules base (kept_all convention kept.now count) (buffers image.now area.now copies.now) }
{
    for i in 0..count {
        let s = call_kept::span_at(kept, i);
        if asks(s) {
            let t = call_kept::type_at(kept, i);
            let n = sig_types::size_of(convention, t);
            argument_answer(image, area, copies, rules, t, n, s, base)?;
        }
    }
    Ok(())
}

// Whether the buffers have the lengths that a plan asks for.
fn tested(have: ReadLengths, values: usize, area: usize) -> Result<(), CallError>
    ensures { result ≡ first_of (read_tests have values area) }
{
    if have.image != IMAGE_BYTES {
        return Err(CallError::Refused(CallRefusal::ImageSize));
    }
    if have.values != values {
        return Err(CallError::Refused(CallRefusal::ValuesSize));
    }
    if have.area < area {
        return Err(CallError::Refused(CallRefusal::AreaTooShort));
    }
    Ok(())
}

// The reading of a call once what stands before its arguments is read: they are kept, so that both passes go over them without the signature.
fn read_part(
    sig: &[u8],
    values: &mut [u8],
    image: &[u8],
    area: &[u8],
    copies: &[u8],
    base: u64,
    head: Head,
    kept: &mut [u16],
) -> Result<(), CallError>
    requires { HeadIs sig.now head.convention head.result head.ellipsis head.at head.end head.earlier × RoomFor row_length head.at head.end (length kept.old) }
    ensures value { result ≡ read_answer sig.now (read_lengths values.old image.now area.now) base (buffers image.now area.now copies.now) }
    ensures values_after { values.new ≡ read_values sig.now base result (buffers image.now area.now copies.now) values.old }
{
    let k = call_arguments::keep_call(sig, head, kept);
    let m = k.sizes;
    m.outcome?;
    let have = ReadLengths {
        values: values.len(),
        image: image.len(),
        area: area.len(),
    };
    tested(have, m.values, m.area)?;
    let convention = head.convention;
    let rules = call_arguments::rules_in(convention, head.ellipsis);
    first_refusal(image, area, copies, rules, convention, k.count, kept, base)?;
    call_unmarshal::take_arguments(
        values, image, area, copies, rules, convention, k.count, kept, base,
    );
    Ok(())
}

// The same of a call without arguments: only the lengths are tested.
fn read_none(
    sig: &[u8],
    values: &[u8],
    image: &[u8],
    area: &[u8],
    head: Head,
) -> Result<(), CallError>
    requires { NoneLeft sig.now head.convention head.result head.end head.earlier }
    ensures { result ≡ lengths_answer sig.now (read_lengths values.now image.now area.now) }
{
    let m = call_arguments::measure_none(sig, head);
    m.outcome?;
    let have = ReadLengths {
        values: values.len(),
        image: image.len(),
        area: area.len(),
    };
    tested(have, m.values, m.area)
}

// Takes the values of a call's arguments out of the register image, the parameter area and the copies. Takes any bytes as signature,
// and buffers of any lengths.
pub fn read(
    sig: &[u8],
    values: &mut [u8],
    image: &[u8],
    area: &[u8],
    copies: &[u8],
    base: u64,
) -> Result<(), CallError>
    ensures value { result ≡ read_answer sig.now (read_lengths values.old image.now area.now) base (buffers image.now area.now copies.now) }
    ensures values_after { values.new ≡ read_values sig.now base result (buffers image.now area.now copies.now) values.old }
{
    let head = sig_head::read_head(sig)?;
    if head.at == head.end {
        return read_none(sig, values, image, area, head);
    }
    if head.end - head.at <= FEW_BYTES {
        let mut few = [0u16; ROW * FEW_ARGUMENTS];
        return read_part(sig, values, image, area, copies, base, head, &mut few);
    }
    let mut many = [0u16; ROW * MAX_ARGUMENTS];
    read_part(sig, values, image, area, copies, base, head, &mut many)
}
