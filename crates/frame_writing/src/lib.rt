// Writing registers: which of them a frame may write, and the registers after a write.
#![tactic(auto)]

ghost use Rattle.std.specs.Prelude.{◌≡◌, ◌≤◌, ◌<◌, Some};
ghost use Rattle.frame_rules.specs.Rules.{within};
ghost use Rattle.frame_rules.specs.Frames.{writable, writable_field, bank_of, writable_register, unit_of, with_condition_field, with_register};
ghost use Rattle.frame_rules.specs.Helpers.{Named};

use frame_rules::{BankRules, Frame, FrameRules, RegisterBank, RegisterSpan, Registers};

// ---- what may be written

// Is n among the registers of one of the spans?
fn in_spans(vs: [RegisterSpan; 2], n: usize) -> bool
    ensures { result ≡ within vs n }
{
    frame_rules::in_span(vs[0], n) || frame_rules::in_span(vs[1], n)
}

// May a frame that saves the registers of a bank from `from` on write register n?
fn bank_writable(b: BankRules, from: usize, n: usize) -> bool
    ensures { result ≡ writable b from n }
{
    in_spans(b.volatile, n) || from <= n && n <= b.last
}

#[tactic(auto, unfolding(frame_rules::specs::Frames::writable_field))]
fn field_writable(k: FrameRules, f: Frame, n: usize, v: u64) -> bool
    ensures { result ≡ writable_field k f n v }
{
    frame_rules::has_condition(k.linkage)
        && v <= 15
        && (n <= 1 || 5 <= n && n <= 7 || f.saves_cr && 2 <= n && n <= 4)
}

// The bank of a number.
#[tactic(auto, unfolding(frame_rules::specs::Frames::bank_of))]
pub fn bank_of(b: u64) -> Option<RegisterBank>
    ensures { result ≡ bank_of b }
{
    match b {
        0 => Some(RegisterBank::General),
        1 => Some(RegisterBank::Floating),
        2 => Some(RegisterBank::Link),
        3 => Some(RegisterBank::ConditionField),
        _ => None,
    }
}

#[tactic(auto, unfolding(frame_rules::specs::Frames::writable_register))]
fn general_writable(k: FrameRules, f: Frame, n: usize, v: u64) -> bool
    ensures { result ≡ writable_register k f (Some RegisterBank.General) n v }
{
    bank_writable(k.gpr, f.first_gpr, n) && v <= k.limit
}

#[tactic(auto, unfolding(frame_rules::specs::Frames::writable_register))]
fn link_writable(k: FrameRules, f: Frame, n: usize, v: u64) -> bool
    ensures { result ≡ writable_register k f (Some RegisterBank.Link) n v }
{
    frame_rules::has_condition(k.linkage) && !f.leaf && v <= k.limit
}

// May the frame f write v to register n of the bank b?
#[tactic(auto, unfolding(frame_rules::specs::Frames::writable_register))]
pub fn register_writable(k: FrameRules, f: Frame, b: Option<RegisterBank>, n: usize, v: u64) -> bool
    ensures { result ≡ writable_register k f b n v }
{
    match b {
        Some(RegisterBank::General) => general_writable(k, f, n, v),
        Some(RegisterBank::Floating) => bank_writable(k.fpr, f.first_fpr, n),
        Some(RegisterBank::Link) => link_writable(k, f, n, v),
        Some(RegisterBank::ConditionField) => field_writable(k, f, n, v),
        None => false,
    }
}

// ---- writing

// The weight of the lowest bit of condition field n.
fn unit(n: usize) -> u64
    requires { n ≤ 7 }
    ensures { (result ≡ unit_of n) × (0 < result) × (result ≤ 268435456) }
{
    16u64.pow((7 - n) as u32)
}

// A condition register with field n at v.
fn with_condition_field(c: u32, n: usize, v: u64) -> u32
    requires { (n ≤ 7) × (v ≤ 15) }
    ensures { result ≡ with_condition_field c n v }
{
    let u = unit(n);
    let x = c as u64;
    (x / (16 * u) * (16 * u) + v * u + x % u) as u32
}

// The registers with v in register n of the bank b.
#[tactic(auto, unfolding(frame_rules::specs::Frames::with_register))]
pub fn with_register(r: Registers, b: Option<RegisterBank>, n: usize, v: u64) -> Registers
    requires { Named b n v }
    ensures { result ≡ with_register r b n v }
{
    let mut q = r;
    match b {
        Some(RegisterBank::General) => q.gpr[n] = v,
        Some(RegisterBank::Floating) => q.fpr[n] = v,
        Some(RegisterBank::Link) => q.lr = v,
        Some(RegisterBank::ConditionField) => q.cr = with_condition_field(r.cr, n, v),
        None => {}
    }
    q
}
