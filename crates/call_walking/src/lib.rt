// The calls of a walker over its six words. A step tests all before it writes anything, and works in the part of the area that starts at the walker's
// offset, since a cursor's own numbers are small.
#![tactic(auto)]

ghost use Rattle.std.specs.Prelude.{◌≡◌, false, ◌≤◌, length};
ghost use Rattle.sig_items.specs.Answer.{item_answer};
ghost use Rattle.sig_signatures.specs.Read.{signature_of};
ghost use Rattle.plan_places.specs.Step.{rules_of};
ghost use Rattle.plan_plans.specs.Plan.{hidden_in, start_in};
ghost use Rattle.call_slots.specs.Buffers.{buffers};
ghost use Rattle.call_slots.specs.Refusals.{first_of};
ghost use Rattle.call_walker.specs.Walker.{walker as walker_at, counters, counters_of, cursor_at, lost};
ghost use Rattle.call_walker.specs.Step.{type_item, passes, step_tests};
ghost use Rattle.call_walker.specs.Words.{walk_start_answer, walker_start_words, step_for, walker_step};
ghost use Rattle.call_walker.specs.Walks.{Small};
ghost use Rattle.call_walker.specs.Helpers.{local};
ghost use Rattle.call_walking.specs.Helpers.{Declared, Offset, Countable, counters_after};

use base_conventions::Convention;
use call_slots::{CallError, CallRefusal};
use call_walker::{Counters, WALKER_WORDS, Walker, WalkerAnswer, WalkerRead};
use plan_places::{CallRules, Cursor, IMAGE_BYTES, Span};
use sig_head::MAX_LENGTH;
use sig_items::{Fault, Item, Refusal};
use sig_types::ValueType;

// ---- the counters

// The counters k, and from offset 0 of the area on those of a cursor.
fn counters_after(r: CallRules, k: Counters, d: Cursor) -> Counters
    requires { Small k × Countable r d }
    ensures { result ≡ counters_after r k d }
{
    match r {
        CallRules::Power(f) => Counters {
            general: k.general + (d.stack / f.word) as u64,
            floating: (d.floating - 1) as u64,
            stack: 0,
        },
        CallRules::Z => Counters {
            general: d.general as u64,
            floating: d.floating as u64,
            stack: k.stack + d.stack as u64,
        },
    }
}

// The cursor that counters stand for, at offset 0.
fn local_cursor(r: CallRules, k: Counters) -> Cursor
    requires { Small k }
    ensures { result ≡ local (cursor_at r k) }
{
    match r {
        CallRules::Power(_) => Cursor {
            general: 3 + (k.general as usize).min(8),
            floating: 1 + k.floating as usize,
            stack: 0,
            copies: 0,
        },
        CallRules::Z => Cursor {
            general: k.general as usize,
            floating: k.floating as usize,
            stack: 0,
            copies: 0,
        },
    }
}

// Its offset in the area.
fn offset_of(r: CallRules, k: Counters) -> usize
    requires { Small k × Offset r k }
    ensures { result ≡ (cursor_at r k).stack }
{
    match r {
        CallRules::Power(f) => f.word * (k.general as usize),
        CallRules::Z => (k.stack - call_walker_words::AREA_OFFSET) as usize,
    }
}

// ---- the start

fn walker_of(c: Convention, ellipsis: bool, res: Option<ValueType>) -> Walker
    ensures { result ≡ walker_at c ellipsis (hidden_in c res) (counters_of (rules_of c) (start_in c res)) }
{
    let r = both_abi::call_rules_of(c);
    let hidden = plan_planning::hidden_in(c, res);
    let d = plan_placing::start(c, hidden);
    let none = Counters {
        general: 0,
        floating: 0,
        stack: call_walker_words::AREA_OFFSET,
    };
    let at = counters_after(r, none, d);
    Walker {
        convention: c,
        ellipsis,
        hidden,
        at,
    }
}

// The walker of a signature, at its first argument. A refused start leaves the words as they were.
pub fn start(words: &mut [u64; WALKER_WORDS], sig: &[u8]) -> WalkerAnswer
    ensures value { result ≡ walk_start_answer (signature_of sig.now) }
    ensures words_after { words.new ≡ walker_start_words (signature_of sig.now) words.old }
{
    let g = sig_whole::read_signature(sig);
    let outcome = g.outcome;
    match outcome {
        Err(fault) => WalkerAnswer::Called(Err(CallError::Unread(fault))),
        Ok(_) => {
            let convention = g.convention;
            let result = g.result;
            let ellipsis = g.ellipsis;
            let w = walker_of(convention, ellipsis, result);
            call_walker_words::put_walker(words, w);
            WalkerAnswer::Called(Ok(()))
        }
    }
}

// ---- a step

// One type item and nothing after it.
fn read_type(s: &[u8], c: Convention) -> Result<Item, Fault>
    ensures { result ≡ item_answer c (type_item c s.now) }
{
    if MAX_LENGTH < s.len() {
        return Err(Fault {
            reason: Refusal::TooLong,
            place: 0,
            passed: 0,
        });
    }
    match sig_nested_items::read_item(s, c, 0, s.len(), sig_types::MAX_DEPTH) {
        Err(fault) => Err(fault),
        Ok(Item { ty, next, items }) => {
            if next < s.len() {
                return Err(Fault {
                    reason: Refusal::Malformed,
                    place: next,
                    passed: items,
                });
            }
            Ok(Item { ty, next, items })
        }
    }
}

// Whether a span's places in memory pass an area of so many bytes.
fn passes_area(s: Span, area: usize) -> bool
    ensures { result ≡ passes s area }
{
    let memory = s.memory;
    if memory.length == 0 {
        return false;
    }
    area < memory.start as usize + memory.length as usize
}

// The tests of the lengths.
fn tested(n: usize, s: Span, value: usize, image: usize, area: usize) -> Result<(), CallError>
    ensures { result ≡ first_of (step_tests n s value image area) }
{
    if image != IMAGE_BYTES {
        return Err(CallError::Refused(CallRefusal::ImageSize));
    }
    if value != n {
        return Err(CallError::Refused(CallRefusal::ValuesSize));
    }
    if passes_area(s, area) {
        return Err(CallError::Refused(CallRefusal::AreaTooShort));
    }
    Ok(())
}

// A step of a walker, once its item is read.
fn step(
    words: &mut [u64; WALKER_WORDS],
    w: Walker,
    t: ValueType,
    value: &mut [u8],
    image: &[u8],
    area: &[u8],
    copies: &[u8],
    base: u64,
) -> WalkerAnswer
    requires { (lost w ≡ false) × Declared w.convention t }
    ensures value { result ≡ (step_for words.old w t base (buffers image.now area.now copies.now) value.old).answer }
    ensures words_after { words.new ≡ (step_for words.old w t base (buffers image.now area.now copies.now) value.old).words }
    ensures value_after { value.new ≡ (step_for words.old w t base (buffers image.now area.now copies.now) value.old).value }
{
    let c = w.convention;
    let k = w.at;
    let ellipsis = w.ellipsis;
    let hidden = w.hidden;
    let n = sig_types::size_of(c, t);
    let plain = both_abi::call_rules_of(c);
    let r = call_arguments::rules_in(c, ellipsis);
    let d = local_cursor(plain, k);
    if plan_placing::unclear_for(plain, d, t) {
        return WalkerAnswer::Called(Err(CallError::Unread(Fault {
            reason: Refusal::UnclearPlace,
            place: 0,
            passed: 0,
        })));
    }
    let p = plan_placing::step(r, d, t, n);
    let s = p.span;
    let next = p.next;
    let from = offset_of(plain, k).min(area.len());
    let lengths = tested(n, s, value.len(), image.len(), area.len() - from);
    if lengths.is_err() {
        return WalkerAnswer::Called(lengths);
    }
    let answer = call_read::argument_answer(image, &area[from..], copies, r, t, n, s, base);
    if answer.is_err() {
        return WalkerAnswer::Called(answer);
    }
    call_unmarshal::take_argument(value, image, &area[from..], copies, r, t, n, s, base);
    let at = counters_after(plain, k, next);
    call_walker_words::put_walker(
        words,
        Walker {
            convention: c,
            ellipsis,
            hidden,
            at,
        },
    );
    WalkerAnswer::Called(Ok(()))
}

// The walker asked with one type item's bytes: its value, and the walker moved on. A refused call leaves the words and the value buffer as they were.
pub fn walk(
    words: &mut [u64; WALKER_WORDS],
    item: &[u8],
    value: &mut [u8],
    image: &[u8],
    area: &[u8],
    copies: &[u8],
    base: u64,
) -> WalkerAnswer
    ensures value { result ≡ (walker_step words.old item.now base (buffers image.now area.now copies.now) value.old).answer }
    ensures words_after { words.new ≡ (walker_step words.old item.now base (buffers image.now area.now copies.now) value.old).words }
    ensures value_after { value.new ≡ (walker_step words.old item.now base (buffers image.now area.now copies.now) value.old).value }
{
    match call_walker_words::walker_in(words) {
        WalkerRead::Lost => WalkerAnswer::Lost,
        WalkerRead::Walker(w) => {
            let c = w.convention;
            match read_type(item, c) {
                Err(fault) => WalkerAnswer::Called(Err(CallError::Unread(fault))),
                Ok(
                    Item {
                        ty,
                        next: _,
                        items: _,
                    },
                ) => step(words, w, ty, value, image, area, copies, base),
            }
        }
    }
}
