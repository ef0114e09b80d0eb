// Views of arguments in a homed parameter area: each is an argument's own bytes as a part of the caller's slice.
#![tactic(auto)]

ghost use Rattle.std.specs.Prelude.{◌≡◌, length};
ghost use Rattle.call_slots.specs.Refusals.{first_of, after_reading};
ghost use Rattle.call_views.specs.View.{view_tests, view_answer, view_part, view_of};

use call_slots::{CallError, CallRefusal};
use plan_places::CallRules;
use sig_items::Fault;

// The part of an area that is an argument's own bytes: none where the answer refuses.
#[derive(Clone, Copy)]
pub struct ViewPart {
    pub answer: Result<(), CallError>,
    pub start: usize,
    pub length: usize,
}

// Whether there is a view of argument `index` of `count` in an area of `have` bytes.
fn view_tested(
    r: CallRules,
    count: usize,
    index: usize,
    have: usize,
    area: usize,
) -> Result<(), CallError>
    ensures { result ≡ first_of (view_tests r count index have area) }
{
    if call_home_slot::is_homeless(r) {
        return Err(CallError::Refused(CallRefusal::NoView));
    }
    if count <= index {
        return Err(CallError::Refused(CallRefusal::NoView));
    }
    if have < area {
        return Err(CallError::Refused(CallRefusal::AreaTooShort));
    }
    Ok(())
}

fn view_answer(
    outcome: Result<usize, Fault>,
    r: CallRules,
    count: usize,
    index: usize,
    have: usize,
    area: usize,
) -> Result<(), CallError>
    ensures { result ≡ after_reading outcome (first_of (view_tests r count index have area)) }
{
    outcome?;
    view_tested(r, count, index, have, area)
}

// Where the own bytes of argument `index` lie in a homed area of `have` bytes.
pub fn view_part(sig: &[u8], index: usize, have: usize) -> ViewPart
    ensures { result ≡ view_part sig.now have index }
{
    let g = sig_whole::read_signature(sig);
    let p = plan_planning::plan_signature(g);
    let outcome = plan_planning::call_outcome(sig, g);
    let convention = g.convention;
    let rules = both_abi::call_rules_of(convention);
    let answer = view_answer(outcome, rules, g.count, index, have, p.area);
    if answer.is_err() {
        return ViewPart {
            answer,
            start: 0,
            length: 0,
        };
    }
    let a = g.arguments[index];
    let t = a.ty;
    let s = p.spans[index];
    let place = s.home;
    let n = sig_types::size_of(convention, t);
    let room = place.length as usize;
    let start = place.start as usize + call_slots::own_start(rules, t, n, room);
    ViewPart {
        answer,
        start,
        length: n,
    }
}

// The answer on the same inputs as `view`'s.
pub fn check_view(area: &[u8], sig: &[u8], index: usize) -> Result<(), CallError>
    ensures { result ≡ view_answer sig.now (length area.now) index }
{
    let p = view_part(sig, index, area.len());
    p.answer
}

// The own bytes of argument `index` in the homed area; none where `check_view` refuses.
pub fn view<'a>(area: &'a [u8], sig: &[u8], index: usize) -> &'a [u8]
    ensures { result.now ≡ view_of sig.now area.now index }
{
    let p = view_part(sig, index, area.len());
    let start = p.start;
    let end = start + p.length;
    &area[start..end]
}
