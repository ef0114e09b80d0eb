// One argument on PowerPC: how many of its words have a GPR, an FPR or memory, and where they stand.
#![tactic(auto)]

ghost use Rattle.std.specs.Prelude.{◌≡◌, true, ◌*◌, ◌≤◌};
ghost use Rattle.plan_places.specs.declared.CallRules.{CallRules};
ghost use Rattle.plan_places.specs.Power.{words, fprs, unclear, share_of, power_share, power_span, power_next};
ghost use Rattle.plan_places.specs.Step.{placed_as, next_of, placed};
ghost use Rattle.plan_places.specs.Helpers.{Roomy};
ghost use Rattle.plan_power_step.specs.Helpers.{Counted};
ghost use Rattle.sig_types.specs.Sizes.{max_size};

use plan_places::{Cursor, Edition, Placed, PowerRules, Share, Span};
use sig_types::{FloatFormat, ValueType};

// The words of the argument list that a value of `size` bytes takes.
fn words_of(word: usize, size: usize) -> usize
    requires { (4 ≤ word) × (word ≤ 8) × (size ≤ max_size) }
    ensures { (result ≡ words word size) × (word * result ≤ 264) }
{
    // The usual width by a shift: a division by a variable is slow. One for words of 4 bytes would make the step too long to be compiled in line.
    if word == 8 {
        return (size + 7) / 8;
    }
    (size + (word - 1)) / word
}

// The FPRs that a type asks for.
#[tactic(auto, unfolding(plan_places::specs::Power::fprs))]
fn fprs_of(edition: Edition, t: ValueType) -> usize
    ensures { (result ≡ fprs edition t) × (result ≤ 2) }
{
    match t {
        ValueType::Integer(_) | ValueType::Struct(_) => 0,
        ValueType::Float(FloatFormat::Single | FloatFormat::Double) => 1,
        ValueType::Float(FloatFormat::LongDouble) => match edition {
            Edition::Earlier => 0,
            Edition::Later => 2,
        },
    }
}

// With an ellipsis: in FPRs where they are left, and in words.
fn both_of(m: usize, room: usize, n: usize, k: usize) -> Share
    requires { k ≤ n }
    ensures { result ≡ share_of true m room n k }
{
    let floating = if room < m { 0 } else { m };
    Share {
        general: k,
        floating,
        memory: n - k,
    }
}

// An argument of n words, k of which have a GPR, that asks for m FPRs where `room` are left. Only of a float is it asked whether the call has an
// ellipsis.
fn share_of(ellipsis: bool, m: usize, room: usize, n: usize, k: usize) -> Share
    requires { k ≤ n }
    ensures { result ≡ share_of ellipsis m room n k }
{
    if m == 0 {
        return Share {
            general: k,
            floating: 0,
            memory: n - k,
        };
    }
    if ellipsis {
        return both_of(m, room, n, k);
    }
    if room < m {
        return Share {
            general: 0,
            floating: 0,
            memory: n,
        };
    }
    Share {
        general: 0,
        floating: m,
        memory: 0,
    }
}

// What an argument takes: its words, those of them that have a GPR, and its share.
#[derive(Clone, Copy)]
struct PowerTaken {
    count: usize,
    covered: usize,
    share: Share,
}

fn taken_of(f: PowerRules, c: Cursor, t: ValueType, size: usize) -> PowerTaken
    requires { (4 ≤ f.word) × (f.word ≤ 8) × Roomy c × (size ≤ max_size) }
    ensures { (result.count ≡ words f.word size) × (result.share ≡ power_share f c t size) × Counted f.word c result.count result.covered result.share }
{
    let n = words_of(f.word, size);
    let k = n.min(PowerRules::PAST_GENERAL - c.general);
    let s = share_of(
        f.ellipsis,
        fprs_of(f.edition, t),
        PowerRules::PAST_FLOATING - c.floating,
        n,
        k,
    );
    PowerTaken {
        count: n,
        covered: k,
        share: s,
    }
}

// Every argument uses up its words and the GPRs that go with them, a float too.
fn next_of(word: usize, c: Cursor, a: PowerTaken) -> Cursor
    requires { Roomy c × Counted word c a.count a.covered a.share }
    ensures { result ≡ power_next word c a.count a.share }
{
    Cursor {
        general: c.general + a.covered,
        floating: c.floating + a.share.floating,
        stack: c.stack + word * a.count,
        copies: c.copies,
    }
}

// The span and the next cursor, from what the argument takes.
fn place(word: usize, c: Cursor, a: PowerTaken) -> Placed
    requires { Roomy c × Counted word c a.count a.covered a.share }
    ensures { result ≡ placed_as (power_span word c a.count a.share) (power_next word c a.count a.share) }
{
    let n = a.count;
    let stored = a.share.memory;
    Placed {
        span: Span {
            general: plan_places::register_range(c.general, a.share.general),
            floating: plan_places::register_range(c.floating, a.share.floating),
            home: plan_places::byte_range(c.stack, word * n),
            memory: plan_places::byte_range(c.stack + word * (n - stored), word * stored),
            copy: plan_places::byte_range(c.copies, 0),
            indirect: false,
        },
        next: next_of(word, c, a),
    }
}

pub fn step(f: PowerRules, c: Cursor, t: ValueType, size: usize) -> Placed
    requires { (4 ≤ f.word) × (f.word ≤ 8) × Roomy c × (size ≤ max_size) }
    ensures { result ≡ placed (CallRules.Power f) c t size }
{
    place(f.word, c, taken_of(f, c, t, size))
}

// The next cursor of the step, without the span. An ellipsis moves no cursor, so that none is looked for.
pub fn advance(f: PowerRules, c: Cursor, t: ValueType, size: usize) -> Cursor
    requires { (4 ≤ f.word) × (f.word ≤ 8) × Roomy c × (size ≤ max_size) }
    ensures { result ≡ next_of (CallRules.Power f) c t size }
{
    let plain = PowerRules {
        ellipsis: false,
        ..f
    };
    next_of(f.word, c, taken_of(plain, c, t, size))
}

// Whether the papers leave open where the argument goes: some FPRs are left, but fewer than its type asks for. Only the later edition's rules do.
#[tactic(auto, using(crate::proofs::Unclear::earlier_clear, crate::proofs::Unclear::none_left, crate::proofs::Unclear::some_left))]
pub fn is_unclear(f: PowerRules, c: Cursor, t: ValueType) -> bool
    requires { Roomy c }
    ensures { result ≡ unclear f c t }
{
    match f.edition {
        Edition::Earlier => false,
        Edition::Later => {
            let left = PowerRules::PAST_FLOATING - c.floating;
            left != 0 && left < fprs_of(f.edition, t)
        }
    }
}
