// What stands in the slots of one argument: the 64 bits of a value in a general register, in memory or in an FPR, and the refusals
// of filling, reading, home and view.
#![tactic(auto)]

ghost use Rattle.std.specs.Prelude.{◌≡◌, ◌^◌, ◌≤◌, ◌<◌, length};
ghost use Rattle.call_slots.specs.declared.CallError.TheVariants.{Unread, Refused};
ghost use Rattle.base_words.specs.Numbers.{value_of};
ghost use Rattle.call_slots.specs.Forms.{signed_kind, is_signed, struct_at_head, head_first, starts_at_head, extended, room_of, own_start, single_word};
ghost use Rattle.base_ieee.specs.Narrowing.{narrow as narrow_of};
ghost use Rattle.call_slots.specs.Refusals.{call_refusal_number, narrowed_answer, float_answer};

use plan_places::CallRules;
use sig_items::Fault;
use sig_types::{Equivalent, FloatFormat, IntegerKind, ValueType};

// Why a call is refused once its signature is read; `u64::from` gives document 01's number.
#[derive(Clone, Copy, Debug, PartialEq, Eq)]
pub enum CallRefusal {
    ValuesSize,
    AreaTooShort,
    BadCopies,
    OutsideCopies,
    NotWidened,
    ImageSize,
    FloatsDiffer,
    NoView,
}

impl From<CallRefusal> for u64 {
    ghost from_gives = { λ r n. n ≡ call_refusal_number r };

    fn from(r: CallRefusal) -> u64 {
        match r {
            CallRefusal::ValuesSize => 10,
            CallRefusal::AreaTooShort => 11,
            CallRefusal::BadCopies => 12,
            CallRefusal::OutsideCopies => 13,
            CallRefusal::NotWidened => 14,
            CallRefusal::ImageSize => 15,
            CallRefusal::FloatsDiffer => 26,
            CallRefusal::NoView => 24,
        }
    }
}

// Why a call is not done: its signature is refused, by the reading's fault; or the call is, at place 0.
#[derive(Clone, Copy, Debug, PartialEq, Eq)]
pub enum CallError {
    Unread(Fault),
    Refused(CallRefusal),
}

impl From<Fault> for CallError {
    ghost from_gives = { λ f e. e ≡ Unread f };

    fn from(fault: Fault) -> CallError {
        CallError::Unread(fault)
    }
}

impl From<CallRefusal> for CallError {
    ghost from_gives = { λ r e. e ≡ Refused r };

    fn from(r: CallRefusal) -> CallError {
        CallError::Refused(r)
    }
}

fn signed_kind(k: IntegerKind) -> bool
    ensures { result ≡ signed_kind k }
{
    matches!(
        k,
        IntegerKind::I8 | IntegerKind::I16 | IntegerKind::I32 | IntegerKind::I64
    )
}

fn is_signed(t: ValueType) -> bool
    ensures { result ≡ is_signed t }
{
    match t {
        ValueType::Integer(k) => signed_kind(k),
        ValueType::Float(_) | ValueType::Struct(_) => false,
    }
}

// Whether a PowerPC struct of n bytes starts at the head of its words of `word` bytes: all do but those smaller than a doubleword where
// words are doublewords.
fn struct_at_head(word: usize, n: usize) -> bool
    ensures { result ≡ struct_at_head word n }
{
    word != 8 || 8 <= n
}

fn head_first(word: usize, t: ValueType) -> bool
    ensures { result ≡ head_first word t }
{
    match t {
        ValueType::Integer(_) => false,
        ValueType::Float(f) => matches!(f, FloatFormat::LongDouble),
        ValueType::Struct(s) => struct_at_head(word, s.size as usize),
    }
}

// Whether a value starts at the head of its first word, and zeros fill the last one; else it stands at the end of its words.
pub fn starts_at_head(r: CallRules, t: ValueType) -> bool
    ensures { result ≡ starts_at_head r t }
{
    match r {
        CallRules::Power(f) => head_first(f.word, t),
        CallRules::Z => false,
    }
}

// The 64 bits of a value that stands at the end of its word.
pub fn value_word(t: ValueType, v: &[u8]) -> u64
    requires { (1 ≤ length v.now) × (length v.now ≤ 8) }
    ensures { result ≡ extended t (length v.now) (value_of v.now) }
{
    let n = v.len();
    let x = base_words::load(v, 0, n);
    if is_signed(t) {
        base_words::sign_extend(x, n)
    } else {
        base_words::zero_extend(x, n)
    }
}

// The 64 bits of an FPR that holds a single, or on Z a struct that is placed as one.
pub fn single_word(r: CallRules, x: u64) -> u64
    requires { x < 2 ^ 32 }
    ensures { result ≡ single_word r x }
{
    match r {
        CallRules::Power(_) => base_ieee::widen(x as u32),
        CallRules::Z => x * 0x1_0000_0000,
    }
}

// Where in its words, which have `room` bytes, a value's own bytes start: a value of n bytes that stands at the end of its words is in
// the last n of them.
pub fn own_start(r: CallRules, t: ValueType, n: usize, room: usize) -> usize
    requires { (room ≡ room_of r n) × (n ≤ room) }
    ensures { result ≡ own_start r t n }
{
    if starts_at_head(r, t) { 0 } else { room - n }
}

fn narrowed_answer(x: u64) -> Result<(), CallError>
    ensures { result ≡ narrowed_answer (narrow_of x) }
{
    match base_ieee::narrow(x) {
        Some(_) => Ok(()),
        None => Err(CallError::Refused(CallRefusal::NotWidened)),
    }
}

// Whether an FPR's 64 bits can be read.
pub fn float_answer(r: CallRules, e: Equivalent, x: u64) -> Result<(), CallError>
    ensures { result ≡ float_answer r e x }
{
    match (r, e) {
        (CallRules::Power(_), Equivalent::Single) => narrowed_answer(x),
        _ => Ok(()),
    }
}
