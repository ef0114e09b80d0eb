// The sizes of a signature's plan, without a table of its arguments: each is read, passed and let go.
#![tactic(auto)]

ghost use Rattle.std.specs.Prelude.{◌≡◌, false, ◌^◌, ◌≤◌, length};
ghost use Rattle.sig_signatures.specs.Read.{arguments_in, signature_of};
ghost use Rattle.sig_signatures.specs.Answer.{signature_answer};
ghost use Rattle.sig_signatures.specs.Helpers.{SmallResult};
ghost use Rattle.plan_plans.specs.Plan.{refused_plan, plan_answer, measure_of};
ghost use Rattle.plan_plans.specs.Helpers.{plan_with, unclear_with, measured_by};
ghost use Rattle.plan_plans.specs.Call.{call_of};

use base_conventions::Convention;
use plan_plans::Measured;
use sig_items::{Fault, Item, Refusal};
use sig_signatures::{Head, MAX_ARGUMENTS};
use sig_types::ValueType;

// The sizes by the reading alone, from the arguments on, which stand from `at` to `end`; `earlier` items came before theirs. Each is read, placed and
// let go: no table is made. No size depends on an ellipsis, so that none is asked for.
fn measure_plain(
    s: &[u8],
    convention: Convention,
    returned: Option<ValueType>,
    at: usize,
    end: usize,
    earlier: usize,
) -> Measured
    requires { (at ≤ end) × (end ≤ length s.now) × (end ≤ 2 ^ 16) × (earlier ≤ 2 ^ 16) }
    ensures { result ≡ measure_of (plan_with convention false returned earlier (length s.now) (arguments_in convention s.now at end)) }
{
    let rules = both_abi::call_rules_of(convention);
    let hidden = plan_planning::hidden_in(convention, returned);
    let mut c = plan_placing::start(convention, hidden);
    let mut values = 0;
    let mut count = 0;
    let mut place = at;
    let mut items = 1;
    while place < end {
        if count == MAX_ARGUMENTS {
            return plan_planning::no_measure(Fault {
                reason: Refusal::TooManyArguments,
                place,
                passed: earlier + items,
            });
        }
        match sig_nested_items::read_item(s, convention, place, end, sig_types::MAX_DEPTH) {
            Ok(
                Item {
                    ty,
                    next,
                    items: more,
                },
            ) => {
                let size = sig_types::size_of(convention, ty);
                c = plan_placing::advance(rules, c, ty, size);
                values += size;
                count += 1;
                place = next;
                items += more;
            }
            Err(fault) => {
                return plan_planning::no_measure(sig_items::later_by(earlier + items, fault));
            }
        }
    }
    let counted = earlier + items;
    if place < s.len() {
        return plan_planning::no_measure(Fault {
            reason: Refusal::TrailingBytes,
            place,
            passed: counted,
        });
    }
    let area = plan_placing::area_of(convention, c);
    Measured {
        outcome: Ok(counted),
        area,
        values,
        copies: c.copies,
    }
}

// The sizes of a plan by the reading alone, and the number of its first unclear argument, counted from 1; 0 where none is.
#[derive(Clone, Copy)]
struct Passed {
    measured: Measured,
    unclear: usize,
}

fn not_passed(fault: Fault) -> Passed
    ensures { (result.measured ≡ measure_of (refused_plan fault)) × (result.unclear ≡ 0) }
{
    Passed {
        measured: plan_planning::no_measure(fault),
        unclear: 0,
    }
}

// The same, and the first unclear argument. The loop above does without that: short as it is, the compiler makes one of it for each family of rules.
fn measure_arguments(
    s: &[u8],
    convention: Convention,
    returned: Option<ValueType>,
    at: usize,
    end: usize,
    earlier: usize,
) -> Passed
    requires { (at ≤ end) × (end ≤ length s.now) × (end ≤ 2 ^ 16) × (earlier ≤ 2 ^ 16) }
    ensures { (result.measured ≡ measure_of (plan_with convention false returned earlier (length s.now) (arguments_in convention s.now at end))) × (result.unclear ≡ unclear_with convention returned (length s.now) (arguments_in convention s.now at end)) }
{
    let rules = both_abi::call_rules_of(convention);
    let hidden = plan_planning::hidden_in(convention, returned);
    let mut c = plan_placing::start(convention, hidden);
    let mut values = 0;
    let mut unclear = 0;
    let mut count = 0;
    let mut next = at;
    let mut items = 1;
    while next < end {
        if count == MAX_ARGUMENTS {
            return not_passed(Fault {
                reason: Refusal::TooManyArguments,
                place: next,
                passed: earlier + items,
            });
        }
        match sig_nested_items::read_item(s, convention, next, end, sig_types::MAX_DEPTH) {
            Ok(
                Item {
                    ty,
                    next: after,
                    items: more,
                },
            ) => {
                let bytes = sig_types::size_of(convention, ty);
                unclear = plan_placing::unclear_after(unclear, rules, c, ty, count);
                c = plan_placing::advance(rules, c, ty, bytes);
                values += bytes;
                count += 1;
                next = after;
                items += more;
            }
            Err(fault) => {
                return not_passed(sig_items::later_by(earlier + items, fault));
            }
        }
    }
    let counted = earlier + items;
    if next < s.len() {
        return not_passed(Fault {
            reason: Refusal::TrailingBytes,
            place: next,
            passed: counted,
        });
    }
    let area = plan_placing::area_of(convention, c);
    Passed {
        measured: Measured {
            outcome: Ok(counted),
            area,
            values,
            copies: c.copies,
        },
        unclear,
    }
}

// The answer of a call that was passed, where an unclear argument refuses it.
fn judged(s: &[u8], a: Passed) -> Measured
    ensures { result ≡ measured_by a.unclear a.measured (signature_of s.now) }
{
    if a.unclear == 0 {
        return a.measured;
    }
    plan_planning::no_measure(sig_reader::unclear_fault(s, a.unclear - 1))
}

// The sizes of a call, from the arguments on: where the rules are always clear, no argument is looked at for that.
fn measure_call(
    s: &[u8],
    convention: Convention,
    returned: Option<ValueType>,
    at: usize,
    end: usize,
    earlier: usize,
) -> Measured
    requires { (at ≤ end) × (end ≤ length s.now) × (end ≤ 2 ^ 16) × (earlier ≤ 2 ^ 16) }
    ensures { result ≡ measured_by (unclear_with convention returned (length s.now) (arguments_in convention s.now at end)) (measure_of (plan_with convention false returned earlier (length s.now) (arguments_in convention s.now at end))) (signature_of s.now) }
{
    if plan_placing::always_clear(both_abi::call_rules_of(convention)) {
        return measure_plain(s, convention, returned, at, end, earlier);
    }
    let a = measure_arguments(s, convention, returned, at, end, earlier);
    judged(s, a)
}

// The sizes of the plan of a signature's bytes: any bytes at all.
pub fn measure(s: &[u8]) -> Measured
    ensures { result ≡ measure_of (plan_answer (call_of s.now)) }
{
    match sig_head::read_head(s) {
        Err(fault) => plan_planning::no_measure(fault),
        Ok(h) => measure_call(s, h.convention, h.result, h.at, h.end, h.earlier),
    }
}

// The outcome of reading a signature's bytes: any bytes at all. No place refuses it.
pub fn outcome_of(s: &[u8]) -> Result<usize, Fault>
    ensures { result ≡ (signature_answer (signature_of s.now)).outcome }
{
    let h = sig_head::read_head(s)?;
    measure_plain(s, h.convention, h.result, h.at, h.end, h.earlier).outcome
}
