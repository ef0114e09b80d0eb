// The values of arguments taken out of their registers, memory and copies. An argument is taken only where nothing refuses its reading.
#![tactic(auto)]

ghost use Rattle.std.specs.Prelude.{◌≡◌, [], ◌+◌, ◌*◌, ◌≤◌, ◌<◌, length};
ghost use Rattle.base_words.specs.Splice.{overlay, part};
ghost use Rattle.base_ieee.specs.Narrowing.{narrow as narrow_of};
ghost use Rattle.call_slots.specs.Buffers.{buffers};
ghost use Rattle.call_slots.specs.Forms.{narrowed_bytes, float_value_as};
ghost use Rattle.call_slots.specs.Placements.{Placement, placement, words_at, address_at, value_at, values_at};
ghost use Rattle.call_slots.specs.Helpers.{sizes_of};
ghost use Rattle.call_kept.specs.Helpers.{kept_all, KeptEach};
ghost use Rattle.call_unmarshal.specs.Helpers.{SpanHolds, FprsHold, Readable};

use base_conventions::Convention;
use plan_places::{CallRules, FPRS_AT, Span};
use sig_types::{Equivalent, ValueType};

// The address in a span's only word, a doubleword: no convention with smaller words passes copies.
pub fn word_at(image: &[u8], area: &[u8], s: Span) -> u64
    requires { SpanHolds 8 s image.now area.now × (8 * s.general.count + s.memory.length ≡ 8) }
    ensures { result ≡ address_at 8 s (buffers image.now area.now []) }
{
    let general = s.general;
    let memory = s.memory;
    if 0 < general.count {
        return base_words::load(image, 8 * (general.first as usize), 8);
    }
    base_words::load(area, memory.start as usize, 8)
}

// The bytes of a span's words from lo on, which is in the first word, n of them, at the head of out.
fn take_words(out: &mut [u8], image: &[u8], area: &[u8], word: usize, s: Span, lo: usize, n: usize)
    requires { SpanHolds word s image.now area.now × (lo < word) × (lo + n ≤ word * s.general.count + s.memory.length) × (n ≤ length out.old) }
    ensures { out.new ≡ overlay out.old (part lo n (words_at word s (buffers image.now area.now []))) }
{
    let general = s.general;
    let memory = s.memory;
    let register = general.first as usize;
    let count = general.count as usize;
    let start = memory.start as usize;
    let held = word * count;
    if lo + n <= held {
        call_registers::take_registers(out, image, word, register, count, lo, n);
        return;
    }
    if held <= lo {
        call_registers::take_part(out, area, start + (lo - held), n);
        return;
    }
    let first = held - lo;
    call_registers::take_registers(out, image, word, register, count, lo, first);
    call_registers::take_part(&mut out[first..], area, start, n - first);
}

// The value of a PPC64 single in an FPR at the head of out.
fn take_narrowed(out: &mut [u8], x: u64)
    requires { 4 ≤ length out.old }
    ensures { out.new ≡ overlay out.old (narrowed_bytes (narrow_of x)) }
{
    if let Some(bits) = base_ieee::narrow(x) {
        base_words::put_number(out, 4, u64::from(bits));
    }
}

// The value in FPRs, whose n bytes start at `at` of the image, at the head of out.
pub fn take_float(out: &mut [u8], image: &[u8], r: CallRules, e: Equivalent, at: usize, n: usize)
    requires { (at + n ≤ length image.now) × (FprsHold e n (length out.old)) }
    ensures { out.new ≡ overlay out.old (float_value_as r e (part at n image.now)) }
{
    match e {
        Equivalent::Nothing => {
            call_registers::take_part(out, image, at, n);
        }
        Equivalent::Double => {
            call_registers::take_part(out, image, at, 8);
        }
        Equivalent::Single => match r {
            CallRules::Power(_) => {
                take_narrowed(out, base_words::load(image, at, 8));
            }
            CallRules::Z => {
                call_registers::take_part(out, image, at, 4);
            }
        },
    }
}

// The value of one argument, of a type and its size, at the head of out.
pub fn take_argument(
    out: &mut [u8],
    image: &[u8],
    area: &[u8],
    copies: &[u8],
    r: CallRules,
    t: ValueType,
    n: usize,
    s: Span,
    base: u64,
)
    requires { Readable r base (placement t n s) (buffers image.now area.now copies.now) × (n ≤ length out.old) }
    ensures { out.new ≡ overlay out.old (value_at r base (placement t n s) (buffers image.now area.now copies.now)) }
{
    let fpr = s.floating;
    let indirect = s.indirect;
    if 0 < fpr.count {
        let at = FPRS_AT + 8 * (fpr.first as usize);
        let held = 8 * (fpr.count as usize);
        take_float(out, image, r, sig_types::equivalent_of(t), at, held);
        return;
    }
    if indirect {
        let from = (word_at(image, area, s) - base) as usize;
        call_registers::take_part(out, copies, from, n);
        return;
    }
    let word = plan_places::word_of(r);
    let general = s.general;
    let memory = s.memory;
    let room = word * (general.count as usize) + memory.length as usize;
    take_words(
        out,
        image,
        area,
        word,
        s,
        call_slots::own_start(r, t, n, room),
        n,
    );
}

// The values of all arguments that are kept, one after the other.
pub fn take_arguments(
    values: &mut [u8],
    image: &[u8],
    area: &[u8],
    copies: &[u8],
    rules: CallRules,
    convention: Convention,
    count: usize,
    kept: &[u16],
    base: u64,
)
    requires { KeptEach (λ (q : Placement). Readable rules base q (buffers image.now area.now copies.now)) convention kept.now count × (sizes_of (kept_all convention kept.now count) ≡ length values.old) }
    ensures { values.new ≡ overlay values.old (values_at rules base (kept_all convention kept.now count) (buffers image.now area.now copies.now)) }
{
    let mut v: usize = 0;
    for i in 0..count {
        let t = call_kept::type_at(kept, i);
        let s = call_kept::span_at(kept, i);
        let n = sig_types::size_of(convention, t);
        take_argument(&mut values[v..], image, area, copies, rules, t, n, s, base);
        v += n;
    }
}
