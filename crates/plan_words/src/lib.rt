// A plan in 64-bit words: an entry for each argument in a table that the caller lends, and beside the table the sizes and the
// result's places.
#![tactic(auto)]

ghost use Rattle.std.specs.Prelude.{◌≡◌, ltb, ◌^◌, ◌≤◌, ◌<◌, length};
ghost use Rattle.base_words.specs.Splice.{overlay_whole};
ghost use Rattle.sig_signatures.specs.Limits.{max_length};
ghost use Rattle.sig_signatures.specs.Read.{arguments_in, signature_of};
ghost use Rattle.base_words.specs.Basics.{pick};
ghost use Rattle.sig_types.specs.Sizes.{size_of};
ghost use Rattle.sig_signatures.specs.Helpers.{RoomFor};
ghost use Rattle.plan_places.specs.declared.ResultPlaces.{ResultPlaces};
ghost use Rattle.plan_places.specs.Step.{rules_of, result_of};
ghost use Rattle.plan_plans.specs.Plan.{refused_plan, result_places_in, plan_answer};
ghost use Rattle.plan_plans.specs.Call.{call_of};
ghost use Rattle.plan_entries.specs.Results.{result_words};
ghost use Rattle.plan_entries.specs.Words.{entry_length};
ghost use Rattle.plan_words.specs.Entries.{entries_of};
ghost use Rattle.plan_words.specs.Helpers.{plan_called, rows_called};
ghost use Rattle.plan_words.specs.Planned.{planned_of};

use base_conventions::Convention;
use plan_entries::{ENTRY, ResultWords};
use plan_places::CallRules;
use sig_items::{Fault, Item, Refusal};
use sig_signatures::{FEW_ARGUMENTS, FEW_BYTES, Head, MAX_ARGUMENTS};
use sig_types::{FloatFormat, ValueType};

// A plan without the places of its arguments.
#[derive(Clone, Copy)]
pub struct Planned {
    pub outcome: Result<usize, Fault>,
    pub convention: Convention,
    pub ellipsis: bool,
    pub result: ResultWords,
    pub count: usize,
    pub area: usize,
    pub values: usize,
    pub copies: usize,
}

fn no_result() -> ResultWords
    ensures { result ≡ result_words ResultPlaces.Nothing }
{
    ResultWords {
        kind: 0,
        gpr: 0,
        gprs: 0,
        fpr: 0,
        fprs: 0,
    }
}

// The general registers of an integer: one, or two where it has more bytes than a word.
fn integer_words(word: usize, size: usize) -> u64
    ensures { result ≡ pick (ltb word size) 2 1 }
{
    if word < size { 2 } else { 1 }
}

// The words of a result of a type, from the registers that its convention begins with. Nothing is placed for it: the step is then called for arguments
// alone, and compiled in line there.
fn value_words(c: Convention, t: ValueType) -> ResultWords
    ensures { result ≡ result_words (result_of (rules_of c) t (size_of c t)) }
{
    let k = both_abi::cursor_of(c);
    let general = k.general as u64;
    let floating = k.floating as u64;
    let address = ResultWords {
        kind: 2,
        gpr: general,
        gprs: 1,
        fpr: 0,
        fprs: 0,
    };
    let float = ResultWords {
        kind: 1,
        gpr: 0,
        gprs: 0,
        fpr: floating,
        fprs: 1,
    };
    match t {
        ValueType::Integer(i) => {
            let gprs = integer_words(
                base_conventions::word_bytes(c),
                sig_types::integer_size(c, i),
            );
            ResultWords {
                kind: 1,
                gpr: general,
                gprs,
                fpr: 0,
                fprs: 0,
            }
        }
        ValueType::Float(f) => match f {
            FloatFormat::Single | FloatFormat::Double => float,
            FloatFormat::LongDouble => match both_abi::call_rules_of(c) {
                CallRules::Power(_) => ResultWords { fprs: 2, ..float },
                CallRules::Z => address,
            },
        },
        ValueType::Struct(_) => address,
    }
}

fn result_words(c: Convention, res: Option<ValueType>) -> ResultWords
    ensures { result ≡ result_words (result_places_in c res) }
{
    match res {
        None => no_result(),
        Some(t) => value_words(c, t),
    }
}

fn no_plan(fault: Fault) -> Planned
    ensures { result ≡ planned_of (refused_plan fault) }
{
    Planned {
        outcome: Err(fault),
        convention: Convention::Ppc64,
        ellipsis: false,
        result: no_result(),
        count: 0,
        area: 0,
        values: 0,
        copies: 0,
    }
}

// The plan from the arguments on, which stand from `at` to `end`; `earlier` items came before theirs. Each is read and placed, and its entry kept
// until all are known: nothing is written to the table before the last test.
fn plan_arguments(
    sig: &[u8],
    convention: Convention,
    ellipsis: bool,
    returned: Option<ValueType>,
    at: usize,
    end: usize,
    earlier: usize,
    kept: &mut [u16],
    places: &mut [u64],
) -> Planned
    requires { (at ≤ end) × (end ≤ length sig.now) × (length sig.now ≤ max_length) × (earlier ≤ 2 ^ 16) × RoomFor entry_length at end (length kept.old) }
    ensures value { result ≡ plan_called convention ellipsis returned earlier (length sig.now) (arguments_in convention sig.now at end) (signature_of sig.now) }
    ensures places_after { places.new ≡ overlay_whole places.old (rows_called convention ellipsis returned at (length sig.now) (arguments_in convention sig.now at end)) }
{
    let rules = plan_places::with_ellipsis(both_abi::call_rules_of(convention), ellipsis);
    let hidden = plan_planning::hidden_in(convention, returned);
    let mut c = plan_placing::start(convention, hidden);
    let mut values = 0;
    let mut unclear = 0;
    let mut count = 0;
    let mut next = at;
    let mut items = 1;
    while next < end {
        if count == MAX_ARGUMENTS {
            return no_plan(Fault {
                reason: Refusal::TooManyArguments,
                place: next,
                passed: earlier + items,
            });
        }
        match sig_nested_items::read_item(sig, convention, next, end, sig_types::MAX_DEPTH) {
            Ok(
                Item {
                    ty,
                    next: after,
                    items: more,
                },
            ) => {
                let size = sig_types::size_of(convention, ty);
                unclear = plan_placing::unclear_after(unclear, rules, c, ty, count);
                let p = plan_placing::step(rules, c, ty, size);
                plan_entries::keep_entry(kept, count, next, size, values, p.span);
                c = p.next;
                values += size;
                count += 1;
                next = after;
                items += more;
            }
            Err(fault) => {
                return no_plan(sig_items::later_by(earlier + items, fault));
            }
        }
    }
    let counted = earlier + items;
    if next < sig.len() {
        return no_plan(Fault {
            reason: Refusal::TrailingBytes,
            place: next,
            passed: counted,
        });
    }
    if unclear != 0 {
        return no_plan(sig_reader::unclear_fault(sig, unclear - 1));
    }
    plan_entries::write_table(places, kept, ENTRY * count);
    let result = result_words(convention, returned);
    let area = plan_placing::area_of(convention, c);
    Planned {
        outcome: Ok(counted),
        convention,
        ellipsis,
        result,
        count,
        area,
        values,
        copies: c.copies,
    }
}

// The same, with room for the entries: a little where they are few, since room is cleared before it is used.
fn plan_part(
    sig: &[u8],
    convention: Convention,
    ellipsis: bool,
    returned: Option<ValueType>,
    at: usize,
    end: usize,
    earlier: usize,
    places: &mut [u64],
) -> Planned
    requires { (at ≤ end) × (end ≤ length sig.now) × (length sig.now ≤ max_length) × (earlier ≤ 2 ^ 16) }
    ensures value { result ≡ plan_called convention ellipsis returned earlier (length sig.now) (arguments_in convention sig.now at end) (signature_of sig.now) }
    ensures places_after { places.new ≡ overlay_whole places.old (rows_called convention ellipsis returned at (length sig.now) (arguments_in convention sig.now at end)) }
{
    if end - at <= FEW_BYTES {
        let mut few = [0u16; ENTRY * FEW_ARGUMENTS];
        return plan_arguments(
            sig, convention, ellipsis, returned, at, end, earlier, &mut few, places,
        );
    }
    let mut many = [0u16; ENTRY * MAX_ARGUMENTS];
    plan_arguments(
        sig, convention, ellipsis, returned, at, end, earlier, &mut many, places,
    )
}

// The plan of a signature's bytes, any bytes at all. A table that is too short for all arguments is left as it was.
pub fn plan_words(sig: &[u8], places: &mut [u64]) -> Planned
    ensures value { result ≡ planned_of (plan_answer (call_of sig.now)) }
    ensures places_after { places.new ≡ overlay_whole places.old (entries_of (call_of sig.now)) }
{
    match sig_head::read_head(sig) {
        Err(fault) => no_plan(fault),
        Ok(h) => plan_part(
            sig,
            h.convention,
            h.ellipsis,
            h.result,
            h.at,
            h.end,
            h.earlier,
            places,
        ),
    }
}
