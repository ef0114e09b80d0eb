// The value of one argument put where its span says: in registers, memory and copy. A slot or a copy is written through the part of its
// buffer that starts at its offset.
#![tactic(auto)]

ghost use Rattle.std.specs.Prelude.{◌≡◌, false, eqb, ◌+◌, ◌*◌, ◌≤◌, ◌<◌, length, take};
ghost use Rattle.base_words.specs.Splice.{overlay, splice, part};
ghost use Rattle.base_words.specs.Numbers.{bytes_of};
ghost use Rattle.plan_places.specs.Step.{word_of};
ghost use Rattle.call_registers.specs.Registers.{spread};
ghost use Rattle.call_slots.specs.Buffers.{buffers, floating_at, put_all};
ghost use Rattle.call_slots.specs.Forms.{home_bytes, float_form, float_bytes};
ghost use Rattle.call_slots.specs.Placements.{placement, slots_of};
ghost use Rattle.call_slots.specs.Helpers.{Held, InImage};
ghost use Rattle.call_marshal.specs.Helpers.{padded, SpanTakes, NumberFits, FprsTake, CanPut};

use plan_places::{CallRules, FPRS_AT, Span};
use sig_types::{Equivalent, ValueType};

// The eight bytes of x in the only word of a span, where a word is a doubleword: a general register or a doubleword of memory.
fn put_word(image: &mut [u8], area: &mut [u8], s: Span, x: u64)
    requires { SpanTakes 8 s image.old area.old × (8 * s.general.count + s.memory.length ≡ 8) }
    ensures { (image.new ≡ splice image.old (8 * s.general.first) (take (8 * s.general.count) (bytes_of 8 x))) × (area.new ≡ splice area.old s.memory.start (part (8 * s.general.count) s.memory.length (bytes_of 8 x))) }
{
    let general = s.general;
    let memory = s.memory;
    if 0 < general.count {
        let at = 8 * (general.first as usize);
        base_words::put_number(&mut image[at..], 8, x);
        return;
    }
    let start = memory.start as usize;
    base_words::put_number(&mut area[start..], 8, x);
}

// The lowest bytes of x in a span's words: the first words in general registers, the others in memory.
fn put_each_word(image: &mut [u8], area: &mut [u8], word: usize, s: Span, x: u64)
    requires { SpanTakes word s image.old area.old × NumberFits word s }
    ensures { (image.new ≡ splice image.old (8 * s.general.first) (spread word s.general.count (bytes_of (word * s.general.count + s.memory.length) x))) × (area.new ≡ splice area.old s.memory.start (part (word * s.general.count) s.memory.length (bytes_of (word * s.general.count + s.memory.length) x))) }
{
    let general = s.general;
    let memory = s.memory;
    let at = 8 * (general.first as usize);
    let start = memory.start as usize;
    let count = general.count as usize;
    let stored = memory.length as usize;
    call_registers::put_number_registers(&mut image[at..], word, count, word * count + stored, x);
    base_words::put_number(&mut area[start..], stored, x);
}

// The same in words of any width: a doubleword is put as it is.
fn put_words(image: &mut [u8], area: &mut [u8], word: usize, s: Span, x: u64)
    requires { SpanTakes word s image.old area.old × NumberFits word s }
    ensures { (image.new ≡ splice image.old (8 * s.general.first) (spread word s.general.count (bytes_of (word * s.general.count + s.memory.length) x))) × (area.new ≡ splice area.old s.memory.start (part (word * s.general.count) s.memory.length (bytes_of (word * s.general.count + s.memory.length) x))) }
{
    if word == 8 {
        put_word(image, area, s, x);
        return;
    }
    put_each_word(image, area, word, s, x);
}

// The bytes v at the head of a span's words, and zeros after them: the first words in general registers, the others in memory.
fn put_bytes(image: &mut [u8], area: &mut [u8], word: usize, s: Span, v: &[u8])
    requires { SpanTakes word s image.old area.old × (length v.now ≤ word * s.general.count + s.memory.length) × (word * s.general.count + s.memory.length < length v.now + word) }
    ensures { (image.new ≡ splice image.old (8 * s.general.first) (spread word s.general.count (padded word s v.now))) × (area.new ≡ splice area.old s.memory.start (part (word * s.general.count) s.memory.length (padded word s v.now))) }
{
    let general = s.general;
    let memory = s.memory;
    let at = 8 * (general.first as usize);
    let start = memory.start as usize;
    let count = general.count as usize;
    let stored = memory.length as usize;
    let held = word * count;
    let n = v.len();
    if n <= held {
        call_registers::put_registers(&mut image[at..], word, count, v);
        return;
    }
    call_registers::put_registers(&mut image[at..], word, count, &v[0..held]);
    call_registers::put_padded(&mut area[start..], &v[held..], stored - (n - held));
}

// A float's form in its FPRs, at the head of `place`.
fn put_float(place: &mut [u8], r: CallRules, e: Equivalent, v: &[u8])
    requires { FprsTake e (length v.now) (length place.old) }
    ensures { place.new ≡ overlay place.old (float_form r e v.now) }
{
    match e {
        Equivalent::Nothing | Equivalent::Double => base_words::put(place, v),
        Equivalent::Single => {
            base_words::put_number(
                place,
                8,
                call_slots::single_word(r, base_words::load(v, 0, 4)),
            );
        }
    }
}

// Whether a span has neither general registers nor memory.
fn no_words(s: Span) -> bool
    ensures { result ≡ eqb (s.general.count + s.memory.length) 0 }
{
    let general = s.general;
    let memory = s.memory;
    general.count as usize + memory.length as usize == 0
}

// A value v of type t in the general registers and the memory of its span, where it has any.
fn put_value(image: &mut [u8], area: &mut [u8], r: CallRules, t: ValueType, s: Span, v: &[u8])
    requires { SpanTakes (word_of r) s image.old area.old × Held r (placement t (length v.now) s) × (s.indirect ≡ false) }
    ensures { (image.new ≡ splice image.old (8 * s.general.first) (spread (word_of r) s.general.count (home_bytes r t (length v.now) v.now))) × (area.new ≡ splice area.old s.memory.start (part (word_of r * s.general.count) s.memory.length (home_bytes r t (length v.now) v.now))) }
{
    if no_words(s) {
        return;
    }
    let word = plan_places::word_of(r);
    if call_slots::starts_at_head(r, t) {
        put_bytes(image, area, word, s, v);
        return;
    }
    put_words(image, area, word, s, call_slots::value_word(t, v));
}

// The form of a value in its FPRs, where it has any. The words of the value are then put in one place for all: so that is compiled in line.
fn put_fprs(image: &mut [u8], r: CallRules, t: ValueType, s: Span, v: &[u8])
    requires { InImage r (length image.old) (placement t (length v.now) s) }
    ensures { image.new ≡ splice image.old (floating_at s.floating.first) (take (8 * s.floating.count) (float_bytes r t v.now)) }
{
    let floating = s.floating;
    if 0 < floating.count {
        let at = FPRS_AT + 8 * (floating.first as usize);
        put_float(&mut image[at..], r, sig_types::equivalent_of(t), v);
    }
}

// One argument of type t and value v in its span s: a float in its FPRs, and as well in the words that its span has.
pub fn put_argument(
    image: &mut [u8],
    area: &mut [u8],
    copies: &mut [u8],
    r: CallRules,
    t: ValueType,
    s: Span,
    v: &[u8],
    base: u64,
)
    requires { CanPut r base (length image.old) (length area.old) (length copies.old) (placement t (length v.now) s) }
    ensures { buffers image.new area.new copies.new ≡ put_all (slots_of r base (placement t (length v.now) s) v.now) (buffers image.old area.old copies.old) }
{
    let copy = s.copy;
    let indirect = s.indirect;
    if indirect {
        let start = copy.start as usize;
        base_words::put(&mut copies[start..], v);
        put_word(image, area, s, base + start as u64);
        return;
    }
    put_fprs(image, r, t, s, v);
    put_value(image, area, r, t, s, v);
}
