// The places of arguments and of a result in every convention: the step of its cursor, where the first argument starts, and the size of the area.
#![tactic(auto)]

ghost use Rattle.std.specs.Prelude.{◌≡◌, true, ◌^◌, ◌≤◌, ◌<◌};
ghost use Rattle.plan_places.specs.Values.{pointer};
ghost use Rattle.plan_places.specs.Step.{rules_of, word_of, next_of, unclear_for, placed, fresh_cursor, start_of, area_of, returning, hidden_for, result_of};
ghost use Rattle.plan_places.specs.Helpers.{LawfulCalls, Roomy, always_clear, unclear_after};
ghost use Rattle.sig_types.specs.Sizes.{max_size};

use base_conventions::Convention;
use plan_places::{CallRules, Cursor, Edition, Placed, PowerRules, ResultPlaces};
use sig_types::{FloatFormat, IntegerKind, ValueType};

// One argument of a type and its size: what belongs to it, and where the next one starts.
pub fn step(r: CallRules, c: Cursor, t: ValueType, size: usize) -> Placed
    requires { LawfulCalls r × Roomy c × (size ≤ max_size) }
    ensures { result ≡ placed r c t size }
{
    match r {
        CallRules::Power(f) => plan_power_step::step(f, c, t, size),
        CallRules::Z => plan_z_step::step(c, t, size),
    }
}

// The next cursor of the step, without the span.
pub fn advance(r: CallRules, c: Cursor, t: ValueType, size: usize) -> Cursor
    requires { LawfulCalls r × Roomy c × (size ≤ max_size) }
    ensures { result ≡ next_of r c t size }
{
    match r {
        CallRules::Power(f) => plan_power_step::advance(f, c, t, size),
        CallRules::Z => plan_z_step::advance(c, t, size),
    }
}

// Whether the papers leave open where an argument of this type goes (29).
pub fn unclear_for(r: CallRules, c: Cursor, t: ValueType) -> bool
    requires { Roomy c }
    ensures { result ≡ unclear_for r c t }
{
    match r {
        CallRules::Power(f) => plan_power_step::is_unclear(f, c, t),
        CallRules::Z => false,
    }
}

// Whether the rules are clear wherever an argument stands.
#[tactic(auto, unfolding(plan_places::specs::Helpers::always_clear))]
pub fn always_clear(r: CallRules) -> bool
    ensures { result ≡ always_clear r }
{
    match r {
        CallRules::Power(f) => matches!(f.edition, Edition::Earlier),
        CallRules::Z => true,
    }
}

// The same as below.
fn unclear_in(unclear: usize, r: CallRules, c: Cursor, t: ValueType, count: usize) -> usize
    requires { Roomy c × (count < 2 ^ 16) }
    ensures { result ≡ unclear_after unclear (unclear_for r c t) count }
{
    if unclear != 0 {
        return unclear;
    }
    if unclear_for(r, c, t) { count + 1 } else { 0 }
}

// The number of the first unclear argument, counted from 1, or 0: `unclear` is that of the first `count`, and one more of this type comes at the cursor.
// The test that all conventions but one end with comes first, and alone, so that it is compiled in line.
pub fn unclear_after(unclear: usize, r: CallRules, c: Cursor, t: ValueType, count: usize) -> usize
    requires { Roomy c × (count < 2 ^ 16) }
    ensures { result ≡ unclear_after unclear (unclear_for r c t) count }
{
    if always_clear(r) {
        return unclear;
    }
    unclear_in(unclear, r, c, t, count)
}

// The hidden address of a result, placed as a first argument.
fn hidden_step(c: Convention) -> Placed
    ensures { result ≡ placed (rules_of c) (fresh_cursor (rules_of c)) pointer (word_of (rules_of c)) }
{
    let r = both_abi::call_rules_of(c);
    let k = both_abi::cursor_of(c);
    let word = plan_places::word_of(r);
    step(r, k, ValueType::Integer(IntegerKind::Pointer), word)
}

// The cursor after a hidden address, by the numbers: it takes the first general register and, on PowerPC, that register's word. The step is left to the
// arguments: called in one place alone, it is compiled in line there.
fn past_address(c: Convention) -> Cursor
    ensures { result ≡ start_of (rules_of c) true }
{
    let k = both_abi::cursor_of(c);
    match both_abi::call_rules_of(c) {
        CallRules::Power(f) => Cursor {
            general: k.general + 1,
            floating: k.floating,
            stack: f.word,
            copies: 0,
        },
        CallRules::Z => Cursor {
            general: k.general + 1,
            floating: k.floating,
            stack: 0,
            copies: 0,
        },
    }
}

// The cursor of the first argument: a hidden address goes before it.
pub fn start(c: Convention, hidden: bool) -> Cursor
    ensures { result ≡ start_of (rules_of c) hidden }
{
    if hidden {
        return past_address(c);
    }
    both_abi::cursor_of(c)
}

// The bytes of the parameter area, from the cursor past the last argument.
pub fn area_of(c: Convention, e: Cursor) -> usize
    ensures { result ≡ area_of c e }
{
    both_abi::least_area_of(c).max(e.stack)
}

// Whether a result of this type is handed over through memory.
#[tactic(auto, unfolding(plan_places::specs::Step::hidden_for))]
pub fn hidden_for(r: CallRules, t: ValueType) -> bool
    ensures { result ≡ hidden_for r t }
{
    match t {
        ValueType::Integer(_) => false,
        ValueType::Float(f) => match r {
            CallRules::Power(_) => false,
            CallRules::Z => matches!(f, FloatFormat::LongDouble),
        },
        ValueType::Struct(_) => true,
    }
}

#[tactic(auto, unfolding(plan_places::specs::Step::returning))]
fn returning_of(r: CallRules) -> CallRules
    ensures { result ≡ returning r }
{
    match r {
        CallRules::Power(f) => CallRules::Power(PowerRules {
            edition: Edition::Later,
            ellipsis: false,
            ..f
        }),
        CallRules::Z => CallRules::Z,
    }
}

pub fn result_places(c: Convention, t: ValueType, size: usize) -> ResultPlaces
    requires { size ≤ max_size }
    ensures { result ≡ result_of (rules_of c) t size }
{
    let r = both_abi::call_rules_of(c);
    if hidden_for(r, t) {
        return ResultPlaces::Hidden(hidden_step(c).span);
    }
    let p = step(returning_of(r), both_abi::cursor_of(c), t, size);
    ResultPlaces::Registers(p.span)
}
