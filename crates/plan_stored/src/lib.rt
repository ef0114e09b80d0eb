// Stored plans: a plan written to bytes together with its signature, and the check of stored bytes against a fresh signature. The check makes
// one item after the other, and holds no second plan.
#![tactic(auto)]

ghost use Rattle.std.specs.Prelude.{◌≡◌, ◌+◌, ◌≤◌, length, drop, Ok};
ghost use Rattle.sig_signatures.specs.Limits.{max_length};
ghost use Rattle.plan_text.specs.Writing.{Wrote};
ghost use Rattle.plan_stored.specs.declared.StoreRefusal.TheVariants.{Unread};
ghost use Rattle.plan_stored.specs.Stored.{plan_bytes, length_answer, store_answer, stored_buffer, alike, compared, check_answer};
ghost use Rattle.plan_stored.specs.Helpers.{Writable};

use plan_plans::Plan;
use sig_items::Fault;

// Why no plan is stored: the signature is refused, or the buffer is too short.
#[derive(Clone, Copy)]
pub enum StoreRefusal {
    Unread(Fault),
    TooShort,
}

impl From<Fault> for StoreRefusal {
    ghost from_gives = { λ f r. r ≡ Unread f };

    fn from(fault: Fault) -> StoreRefusal {
        StoreRefusal::Unread(fault)
    }
}

// The length of the stored plan.
fn plan_length(s: &[u8], p: Plan) -> usize
    requires { (length s.now ≤ max_length) × Writable p }
    ensures { result ≡ length (plan_bytes s.now p) }
{
    let rules = both_abi::call_rules_of(p.convention);
    let mut next = 3 + s.len();
    for a in &p.spans[..p.count] {
        next += plan_stored_items::argument_length(rules, *a);
    }
    next + plan_stored_items::result_length(p.result)
}

// A stored plan at the head of `bytes`; what passes the end of `bytes` is lost.
fn put_plan(bytes: &mut [u8], s: &[u8], p: Plan) -> usize
    requires { (length s.now ≤ max_length) × Writable p }
    ensures { Wrote bytes.old bytes.new 0 result (plan_bytes s.now p) }
{
    let rules = both_abi::call_rules_of(p.convention);
    let head = plan_stored_items::put_header(bytes, 0, 0x20, s.len());
    let mut next = plan_text::put_bytes(bytes, head, s);
    for a in &p.spans[..p.count] {
        next = plan_stored_items::put_argument(bytes, next, rules, *a);
    }
    plan_stored_items::put_result(bytes, next, p.result)
}

// What `store_plan` would write, or the signature's refusal.
pub fn stored_length(s: &[u8]) -> Result<usize, StoreRefusal>
    ensures { result ≡ length_answer s.now }
{
    let p = plan_planning::plan_of(s);
    p.outcome?;
    let n = plan_length(s, p);
    Ok(n)
}

// The plan of a signature's bytes, any bytes at all, stored at the head of `stored`, and its length; where `stored` is too short it is left as it was.
pub fn store_plan(s: &[u8], stored: &mut [u8]) -> Result<usize, StoreRefusal>
    ensures { (result ≡ store_answer s.now (length stored.old)) × (stored.new ≡ stored_buffer s.now stored.old) }
{
    let p = plan_planning::plan_of(s);
    p.outcome?;
    let n = plan_length(s, p);
    if stored.len() < n {
        return Err(StoreRefusal::TooShort);
    }
    Ok(put_plan(stored, s, p))
}

// Where the stored bytes from `at` on and those of `part` differ, or the end of the shorter of both.
fn alike_from(stored: &[u8], at: usize, part: &[u8]) -> usize
    requires { at ≤ length stored.now }
    ensures { result ≡ at + alike (drop at stored.now) part.now }
{
    for (i, b) in part.iter().enumerate() {
        if at + i == stored.len() || stored[at + i] != *b {
            return at + i;
        }
    }
    at + part.len()
}

// Where the stored bytes and those of a plan differ, or the end of the shorter of both.
fn alike_plan(stored: &[u8], s: &[u8], p: Plan) -> usize
    requires { (length s.now ≤ max_length) × Writable p }
    ensures { result ≡ alike stored.now (plan_bytes s.now p) }
{
    let rules = both_abi::call_rules_of(p.convention);
    let mut item = [0u8; plan_stored_items::MAX_ITEM];
    let head = plan_stored_items::put_header(&mut item, 0, 0x20, s.len());
    let signature = alike_from(stored, 0, &item[..head]);
    if signature < head {
        return signature;
    }
    let mut next = alike_from(stored, signature, s);
    if next < signature + s.len() {
        return next;
    }
    for a in &p.spans[..p.count] {
        let n = plan_stored_items::put_argument(&mut item, 0, rules, *a);
        let to = alike_from(stored, next, &item[..n]);
        if to < next + n {
            return to;
        }
        next = to;
    }
    let n = plan_stored_items::put_result(&mut item, 0, p.result);
    alike_from(stored, next, &item[..n])
}

// Of stored bytes and a plan that was accepted: where they differ, or None where they don't.
fn compare_plan(stored: &[u8], s: &[u8], p: Plan) -> Option<usize>
    requires { (length s.now ≤ max_length) × Writable p }
    ensures { Ok result ≡ compared stored.now (plan_bytes s.now p) }
{
    let place = alike_plan(stored, s, p);
    if place < stored.len() {
        return Some(place);
    }
    if place < plan_length(s, p) {
        return Some(place);
    }
    None
}

// Whether the stored bytes are what `store_plan` would give for this signature today: None where they are, the place where they differ, or the
// signature's refusal.
pub fn check_plan(stored: &[u8], s: &[u8]) -> Result<Option<usize>, Fault>
    ensures { result ≡ check_answer stored.now s.now }
{
    let p = plan_planning::plan_of(s);
    p.outcome?;
    Ok(compare_plan(stored, s, p))
}
