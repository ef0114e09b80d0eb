// One argument on Z: its class, and the register, the memory or the copy that the class asks for.
#![tactic(auto)]

ghost use Rattle.std.specs.Prelude.{◌≡◌, ◌+◌, ◌-◌, ◌*◌, ◌≤◌, min};
ghost use Rattle.plan_places.specs.declared.CallRules.{CallRules};
ghost use Rattle.plan_places.specs.ZSeries.{by_size, by_equivalent, z_class, z_word, z_span, z_next, z_span_of, z_next_of};
ghost use Rattle.plan_places.specs.Values.{bytes};
ghost use Rattle.plan_places.specs.Step.{placed_as, next_of, placed};
ghost use Rattle.plan_places.specs.Helpers.{Roomy};
ghost use Rattle.sig_types.specs.Sizes.{max_size};

use both_abi::Z;
use plan_places::{Cursor, Placed, Span, ZClass};
use sig_types::{Equivalent, FloatFormat, ValueType};

fn by_size(size: usize) -> ZClass
    ensures { result ≡ by_size size }
{
    if matches!(size, 1 | 2 | 4 | 8) {
        ZClass::Simple
    } else {
        ZClass::Reference
    }
}

fn by_equivalent(e: Equivalent, size: usize) -> ZClass
    ensures { result ≡ by_equivalent e size }
{
    match e {
        Equivalent::Nothing => by_size(size),
        Equivalent::Single | Equivalent::Double => ZClass::Float,
    }
}

#[tactic(auto, unfolding(plan_places::specs::ZSeries::z_class))]
fn class_of(t: ValueType, size: usize) -> ZClass
    ensures { result ≡ z_class t size }
{
    match t {
        ValueType::Integer(_) => ZClass::Simple,
        ValueType::Float(FloatFormat::Single | FloatFormat::Double) => ZClass::Float,
        ValueType::Float(FloatFormat::LongDouble) => ZClass::Reference,
        ValueType::Struct(s) => by_equivalent(s.equivalent, size),
    }
}

// One where a register before `past` is left, else none.
fn one_left(next: usize, past: usize) -> usize
    ensures { (result ≡ min 1 (past - next)) × (result ≤ 1) }
{
    if next < past { 1 } else { 0 }
}

// What an argument takes: GPRs, FPRs or, where it has neither, a word of memory; the bytes of its copy.
#[derive(Clone, Copy)]
struct ZTaken {
    general: usize,
    floating: usize,
    copy: usize,
    length: usize,
    indirect: bool,
}

fn taken_of(c: Cursor, class: ZClass, size: usize) -> ZTaken
    requires { Roomy c × (size ≤ max_size) }
    ensures { (z_span_of c class size ≡ z_span c result.general result.floating (bytes result.copy result.length) result.indirect) × (z_next_of c class size ≡ z_next c result.general result.floating (result.copy + result.length)) × (result.general + result.floating ≤ 1) × (result.copy + result.length ≤ 60300) }
{
    match class {
        ZClass::Float => {
            let f = one_left(c.floating, Z::PAST_FLOATING);
            ZTaken {
                general: 0,
                floating: f,
                copy: c.copies,
                length: 0,
                indirect: false,
            }
        }
        ZClass::Simple => {
            let g = one_left(c.general, Z::PAST_GENERAL);
            ZTaken {
                general: g,
                floating: 0,
                copy: c.copies,
                length: 0,
                indirect: false,
            }
        }
        ZClass::Reference => {
            let pointer = one_left(c.general, Z::PAST_GENERAL);
            ZTaken {
                general: pointer,
                floating: 0,
                copy: (c.copies + 7) / 8 * 8,
                length: size,
                indirect: true,
            }
        }
    }
}

// The bytes of memory of an argument in g GPRs or f FPRs.
fn stored(g: usize, f: usize) -> usize
    requires { g + f ≤ 1 }
    ensures { result ≡ z_word * (1 - (g + f)) }
{
    Z::WORD * (1 - (g + f))
}

// Floating registers count by two: only the even ones are used.
fn next_of(c: Cursor, a: ZTaken) -> Cursor
    requires { Roomy c × (a.general + a.floating ≤ 1) × (a.copy + a.length ≤ 60300) }
    ensures { result ≡ z_next c a.general a.floating (a.copy + a.length) }
{
    Cursor {
        general: c.general + a.general,
        floating: c.floating + 2 * a.floating,
        stack: c.stack + stored(a.general, a.floating),
        copies: a.copy + a.length,
    }
}

// The span and the next cursor, from what the argument takes.
fn place(c: Cursor, a: ZTaken) -> Placed
    requires { Roomy c × (a.general + a.floating ≤ 1) × (a.copy + a.length ≤ 60300) }
    ensures { result ≡ placed_as (z_span c a.general a.floating (bytes a.copy a.length) a.indirect) (z_next c a.general a.floating (a.copy + a.length)) }
{
    let memory = plan_places::byte_range(c.stack, stored(a.general, a.floating));
    Placed {
        span: Span {
            general: plan_places::register_range(c.general, a.general),
            floating: plan_places::register_range(c.floating, a.floating),
            home: memory,
            memory,
            copy: plan_places::byte_range(a.copy, a.length),
            indirect: a.indirect,
        },
        next: next_of(c, a),
    }
}

pub fn step(c: Cursor, t: ValueType, size: usize) -> Placed
    requires { Roomy c × (size ≤ max_size) }
    ensures { result ≡ placed CallRules.Z c t size }
{
    place(c, taken_of(c, class_of(t, size), size))
}

// The next cursor of the step, without the span.
pub fn advance(c: Cursor, t: ValueType, size: usize) -> Cursor
    requires { Roomy c × (size ≤ max_size) }
    ensures { result ≡ next_of CallRules.Z c t size }
{
    next_of(c, taken_of(c, class_of(t, size), size))
}
