// The plan of a signature: the code.
#![tactic(auto)]

ghost use Rattle.std.specs.Prelude.{◌≡◌};
ghost use Rattle.sig_signatures.specs.Read.{signature_of};
ghost use Rattle.plan_plans.specs.Plan.{hidden_in, result_places_in, blank_plan, refused_plan, plan_answer, measure_of};
ghost use Rattle.plan_plans.specs.Helpers.{planned, unclear_of};
ghost use Rattle.sig_signatures.specs.Answer.{signature_answer};
ghost use Rattle.sig_signatures.specs.Helpers.{SmallResult, Plannable};
ghost use Rattle.plan_plans.specs.Call.{call_of, outcome_for};

use base_conventions::Convention;
use plan_places::{ByteRange, RegisterRange, ResultPlaces, Span};
use plan_plans::{Measured, Plan};
use sig_items::Fault;
use sig_signatures::{MAX_ARGUMENTS, SignatureRead};
use sig_types::ValueType;

// A plan without spans and sizes.
fn blank(
    outcome: Result<usize, Fault>,
    convention: Convention,
    ellipsis: bool,
    res: ResultPlaces,
    count: usize,
) -> Plan
    ensures { result ≡ blank_plan outcome convention ellipsis res count }
{
    let none = RegisterRange { first: 0, count: 0 };
    let empty = ByteRange {
        start: 0,
        length: 0,
    };
    Plan {
        outcome,
        convention,
        ellipsis,
        result: res,
        count,
        area: 0,
        values: 0,
        copies: 0,
        spans: [Span {
            general: none,
            floating: none,
            home: empty,
            memory: empty,
            copy: empty,
            indirect: false,
        }; MAX_ARGUMENTS],
    }
}

// The sizes of a call that is refused.
pub fn no_measure(fault: Fault) -> Measured
    ensures { result ≡ measure_of (refused_plan fault) }
{
    Measured {
        outcome: Err(fault),
        area: 0,
        values: 0,
        copies: 0,
    }
}

// Whether a result is handed over through memory, at a hidden address.
pub fn hidden_in(c: Convention, res: Option<ValueType>) -> bool
    ensures { result ≡ hidden_in c res }
{
    match res {
        None => false,
        Some(t) => plan_placing::hidden_for(both_abi::call_rules_of(c), t),
    }
}

pub fn result_in(c: Convention, res: Option<ValueType>) -> ResultPlaces
    requires { SmallResult c res }
    ensures { result ≡ result_places_in c res }
{
    match res {
        None => ResultPlaces::Nothing,
        Some(t) => {
            let size = sig_types::size_of(c, t);
            plan_placing::result_places(c, t, size)
        }
    }
}

// The plan of a signature that was read.
// Never inlined: its stack is given back before the next function's begins, so a call keeps to the stack that the header states.
#[inline(never)]
pub fn plan_signature(g: SignatureRead) -> Plan
    requires { Plannable g }
    ensures { result ≡ planned g }
{
    match g.outcome {
        Err(_) => blank(
            g.outcome,
            Convention::Ppc64,
            false,
            ResultPlaces::Nothing,
            0,
        ),
        Ok(_) => {
            let rules = plan_places::with_ellipsis(
                both_abi::call_rules_of(g.convention),
                g.ellipsis,
            );
            let hidden = hidden_in(g.convention, g.result);
            let result = result_in(g.convention, g.result);
            let mut c = plan_placing::start(g.convention, hidden);
            let mut plan = blank(g.outcome, g.convention, g.ellipsis, result, g.count);
            let mut values = 0;
            for (i, a) in g.arguments[..g.count].iter().enumerate() {
                let size = sig_types::size_of(g.convention, a.ty);
                let p = plan_placing::step(rules, c, a.ty, size);
                plan.spans[i] = p.span;
                c = p.next;
                values += size;
            }
            plan.area = plan_placing::area_of(g.convention, c);
            plan.values = values;
            plan.copies = c.copies;
            plan
        }
    }
}

// The number of the first unclear argument of a signature that was read, counted from 1; 0 where none is. Only the later edition's rules are looked
// through.
pub fn first_unclear(g: SignatureRead) -> usize
    requires { Plannable g }
    ensures { result ≡ unclear_of g }
{
    let rules = both_abi::call_rules_of(g.convention);
    if plan_placing::always_clear(rules) {
        return 0;
    }
    let hidden = hidden_in(g.convention, g.result);
    let mut c = plan_placing::start(g.convention, hidden);
    let mut unclear = 0;
    for (i, a) in g.arguments[..g.count].iter().enumerate() {
        let size = sig_types::size_of(g.convention, a.ty);
        unclear = plan_placing::unclear_after(unclear, rules, c, a.ty, i);
        c = plan_placing::advance(rules, c, a.ty, size);
    }
    unclear
}

// The same as below, where the rules leave something open.
fn later_outcome(sig: &[u8], g: SignatureRead) -> Result<usize, Fault>
    requires { g ≡ signature_answer (signature_of sig.now) }
    ensures { result ≡ outcome_for sig.now }
{
    let unclear = first_unclear(g);
    if unclear == 0 {
        return g.outcome;
    }
    Err(sig_reader::unclear_fault(sig, unclear - 1))
}

// The outcome of a call, by its signature's bytes and what was read of them.
pub fn call_outcome(sig: &[u8], g: SignatureRead) -> Result<usize, Fault>
    requires { g ≡ signature_answer (signature_of sig.now) }
    ensures { result ≡ outcome_for sig.now }
{
    if plan_placing::always_clear(both_abi::call_rules_of(g.convention)) {
        return g.outcome;
    }
    later_outcome(sig, g)
}

// The plan of a call, by the same.
fn plan_call(sig: &[u8], g: SignatureRead) -> Plan
    requires { g ≡ signature_answer (signature_of sig.now) }
    ensures { result ≡ plan_answer (call_of sig.now) }
{
    let unclear = first_unclear(g);
    if unclear == 0 {
        return plan_signature(g);
    }
    let fault = sig_reader::unclear_fault(sig, unclear - 1);
    blank(
        Err(fault),
        Convention::Ppc64,
        false,
        ResultPlaces::Nothing,
        0,
    )
}

// The plan of a signature's bytes: any bytes at all.
pub fn plan_of(s: &[u8]) -> Plan
    ensures { result ≡ plan_answer (call_of s.now) }
{
    plan_call(s, sig_whole::read_signature(s))
}
