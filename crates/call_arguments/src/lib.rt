// The arguments of a call, read once: each is placed, and its type and span are kept in words until all tests are made. Who then moves values goes
// over these, without the signature.
#![tactic(auto)]

ghost use Rattle.std.specs.Prelude.{◌≡◌, false, ◌^◌, ◌≤◌, length};
ghost use Rattle.sig_signatures.specs.Read.{arguments_in, signature_of};
ghost use Rattle.plan_places.specs.Step.{rules_of, with_ellipsis};
ghost use Rattle.sig_signatures.specs.Helpers.{RoomFor};
ghost use Rattle.call_kept.specs.Helpers.{row_length};
ghost use Rattle.call_slots.specs.Arguments.{sizes_for};
ghost use Rattle.plan_plans.specs.Plan.{refused_plan, start_in, measure_of};
ghost use Rattle.plan_plans.specs.Helpers.{plan_with, unclear_with};
ghost use Rattle.call_arguments.specs.Helpers.{HeadIs, NoneLeft, KeptWith, KeptWhere, outcome_by};

use base_conventions::Convention;
use plan_places::{CallRules, Cursor};
use plan_plans::Measured;
use sig_items::{Fault, Item, Refusal};
use sig_signatures::{Head, MAX_ARGUMENTS};
use sig_types::ValueType;

// The sizes of a call, with its outcome, and how many arguments are kept.
#[derive(Clone, Copy)]
pub struct KeptCall {
    pub sizes: Measured,
    pub count: usize,
}

// The cursor of the first argument.
pub fn first_cursor(c: Convention, res: Option<ValueType>) -> Cursor
    ensures { result ≡ start_in c res }
{
    let hidden = plan_planning::hidden_in(c, res);
    plan_placing::start(c, hidden)
}

// The rules of the arguments of a convention, with an ellipsis or without.
pub fn rules_in(c: Convention, ellipsis: bool) -> CallRules
    ensures { result ≡ with_ellipsis ellipsis (rules_of c) }
{
    plan_places::with_ellipsis(both_abi::call_rules_of(c), ellipsis)
}

// The sizes by the reading alone, the number of the first unclear argument, counted from 1, or 0, and how many are kept.
#[derive(Clone, Copy)]
struct KeptArguments {
    measured: Measured,
    unclear: usize,
    count: usize,
}

fn none_kept(fault: Fault) -> KeptArguments
    ensures { (result.measured ≡ measure_of (refused_plan fault)) × (result.unclear ≡ 0) }
{
    KeptArguments {
        measured: plan_planning::no_measure(fault),
        unclear: 0,
        count: 0,
    }
}

// From the arguments on, whose head was read. Each is read, placed and kept.
fn keep_arguments(s: &[u8], head: Head, kept: &mut [u16]) -> KeptArguments
    requires { (head.at ≤ head.end) × (head.end ≤ length s.now) × (head.end ≤ 2 ^ 16) × (head.earlier ≤ 2 ^ 16) × RoomFor row_length head.at head.end (length kept.old) }
    ensures measured_value { (result.measured ≡ measure_of (plan_with head.convention false head.result head.earlier (length s.now) (arguments_in head.convention s.now head.at head.end))) × (result.unclear ≡ unclear_with head.convention head.result (length s.now) (arguments_in head.convention s.now head.at head.end)) }
    ensures kept_with { KeptWith head.convention head.ellipsis head.result (length s.now) (arguments_in head.convention s.now head.at head.end) kept.new result.count }
{
    let rules = rules_in(head.convention, head.ellipsis);
    let mut c = first_cursor(head.convention, head.result);
    let mut values: usize = 0;
    let mut unclear: usize = 0;
    let mut count: usize = 0;
    let mut next = head.at;
    let mut items: usize = 1;
    while next < head.end {
        if count == MAX_ARGUMENTS {
            return none_kept(Fault {
                reason: Refusal::TooManyArguments,
                place: next,
                passed: head.earlier + items,
            });
        }
        match sig_nested_items::read_item(
            s,
            head.convention,
            next,
            head.end,
            sig_types::MAX_DEPTH,
        ) {
            Ok(
                Item {
                    ty,
                    next: after,
                    items: more,
                },
            ) => {
                let bytes = sig_types::size_of(head.convention, ty);
                unclear = plan_placing::unclear_after(unclear, rules, c, ty, count);
                let p = plan_placing::step(rules, c, ty, bytes);
                call_kept::keep(kept, count, ty, p.span);
                c = p.next;
                values += bytes;
                count += 1;
                next = after;
                items += more;
            }
            Err(fault) => {
                return none_kept(sig_items::later_by(head.earlier + items, fault));
            }
        }
    }
    let counted = head.earlier + items;
    if next < s.len() {
        return none_kept(Fault {
            reason: Refusal::TrailingBytes,
            place: next,
            passed: counted,
        });
    }
    let area = plan_placing::area_of(head.convention, c);
    KeptArguments {
        measured: Measured {
            outcome: Ok(counted),
            area,
            values,
            copies: c.copies,
        },
        unclear,
        count,
    }
}

// The outcome of a call whose first unclear argument has this number, counted from 1, or 0; `read` is the outcome of its reading.
fn outcome_of(sig: &[u8], unclear: usize, read: Result<usize, Fault>) -> Result<usize, Fault>
    ensures { result ≡ outcome_by unclear read (signature_of sig.now) }
{
    if unclear == 0 {
        read
    } else {
        Err(sig_reader::unclear_fault(sig, unclear - 1))
    }
}

// A call by its bytes, what stands before its arguments being read.
pub fn keep_call(sig: &[u8], head: Head, kept: &mut [u16]) -> KeptCall
    requires { HeadIs sig.now head.convention head.result head.ellipsis head.at head.end head.earlier × RoomFor row_length head.at head.end (length kept.old) }
    ensures sizes_value { result.sizes ≡ sizes_for sig.now }
    ensures kept_where { KeptWhere result.sizes.outcome sig.now head.convention kept.new result.count }
{
    let p = keep_arguments(sig, head, kept);
    let m = p.measured;
    let outcome = outcome_of(sig, p.unclear, m.outcome);
    KeptCall {
        sizes: Measured { outcome, ..m },
        count: p.count,
    }
}

// The sizes of a call without arguments: nothing stands between `end` and where they would.
pub fn measure_none(sig: &[u8], head: Head) -> Measured
    requires { NoneLeft sig.now head.convention head.result head.end head.earlier }
    ensures { result ≡ sizes_for sig.now }
{
    let counted = head.earlier + 1;
    if head.end < sig.len() {
        return plan_planning::no_measure(Fault {
            reason: Refusal::TrailingBytes,
            place: head.end,
            passed: counted,
        });
    }
    let c = first_cursor(head.convention, head.result);
    let area = plan_placing::area_of(head.convention, c);
    Measured {
        outcome: Ok(counted),
        area,
        values: 0,
        copies: c.copies,
    }
}
