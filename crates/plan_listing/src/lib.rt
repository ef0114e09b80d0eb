// The printed plan of a signature. The writer runs twice, the first time to find the length, so that a buffer that is too short stays as
// it was.
#![tactic(auto)]

ghost use Rattle.std.specs.Prelude.{◌≡◌, ◌+◌, ◌^◌, ◌≤◌, ◌<◌, length};
ghost use Rattle.base_words.specs.Splice.{overlay_whole};
ghost use Rattle.plan_places.specs.Helpers.{ResultNumbered};
ghost use Rattle.plan_text.specs.Writing.{Wrote};
ghost use Rattle.plan_listing.specs.Text.{name_of, ellipsis_text, head_text, result_places_text, result_text, refusal_text, accepted_text, listing_of};
ghost use Rattle.plan_plans.specs.Call.{outcome_for};
ghost use Rattle.plan_plans.specs.Helpers.{Printable};
ghost use Rattle.sig_signatures.specs.Read.{signature_of};
ghost use Rattle.sig_signatures.specs.Answer.{signature_answer};

use base_conventions::Convention;
use plan_line::{put_line, put_registers};
use plan_places::ResultPlaces;
use plan_plans::Plan;
use plan_text::{put_byte, put_bytes, put_labelled};
use sig_items::Fault;
use sig_signatures::SignatureRead;

fn name_of(c: Convention) -> &'static [u8]
    ensures { (result.now ≡ name_of c) × (length result.now ≤ 6) }
{
    match c {
        Convention::Ppc64 => b"PPC64",
        Convention::Z => b"Z",
        Convention::Aix => b"AIX",
        Convention::Ppc64b => b"PPC64B",
    }
}

fn put_ellipsis(text: &mut [u8], at: usize, ellipsis: bool) -> usize
    requires { at < 2 ^ 31 }
    ensures { Wrote text.old text.new at result (ellipsis_text ellipsis) × (result ≤ at + 4) }
{
    if ellipsis {
        return put_bytes(text, at, b" var");
    }
    at
}

// The first line.
fn put_head(
    text: &mut [u8],
    at: usize,
    c: Convention,
    ellipsis: bool,
    args: usize,
    area: usize,
) -> usize
    requires { at < 2 ^ 30 }
    ensures { Wrote text.old text.new at result (head_text c ellipsis args area) × (result ≤ at + 64) }
{
    let a = put_bytes(text, at, name_of(c));
    let b = put_labelled(text, a, b" args ", args);
    let d = put_labelled(text, b, b" area ", area);
    let e = put_ellipsis(text, d, ellipsis);
    put_byte(text, e, 10)
}

fn put_result_places(text: &mut [u8], at: usize, r: ResultPlaces) -> usize
    requires { (at < 2 ^ 29) × ResultNumbered r }
    ensures { Wrote text.old text.new at result (result_places_text r) × (result ≤ at + 2010) }
{
    match r {
        ResultPlaces::Nothing => put_bytes(text, at, b" none"),
        ResultPlaces::Registers(s) => put_registers(text, at, s),
        ResultPlaces::Hidden(s) => {
            let next = put_bytes(text, at, b" hidden");
            put_registers(text, next, s)
        }
    }
}

// The last line.
fn put_result(text: &mut [u8], at: usize, r: ResultPlaces) -> usize
    requires { (at < 2 ^ 28) × ResultNumbered r }
    ensures { Wrote text.old text.new at result (result_text r) }
{
    let a = put_bytes(text, at, b"result");
    let b = put_result_places(text, a, r);
    put_byte(text, b, 10)
}

fn put_refusal(text: &mut [u8], fault: Fault) -> usize
    ensures { Wrote text.old text.new 0 result (refusal_text fault) }
{
    let number = u64::from(fault.reason) as usize;
    let a = put_labelled(text, 0, b"refused ", number);
    let b = put_labelled(text, a, b" at ", fault.place);
    let d = put_labelled(text, b, b" after ", fault.passed);
    put_byte(text, d, 10)
}

// The lines of an accepted plan.
fn put_lines(text: &mut [u8], p: &Plan) -> usize
    requires { Printable p.now }
    ensures { Wrote text.old text.new 0 result (accepted_text p.now) }
{
    let mut next = put_head(text, 0, p.convention, p.ellipsis, p.count, p.area);
    for (i, s) in p.spans[..p.count].iter().enumerate() {
        next = put_line(text, next, p.convention, i, *s);
    }
    put_result(text, next, p.result)
}

// The line of a refused call, where there is room for it; its length.
fn list_refusal(text: &mut [u8], fault: Fault) -> usize
    ensures { (result ≡ length (refusal_text fault)) × (text.new ≡ overlay_whole text.old (refusal_text fault)) }
{
    let mut unused = [0u8; 1];
    let line = put_refusal(&mut unused, fault);
    if text.len() < line {
        return line;
    }
    put_refusal(text, fault)
}

// The lines of an accepted plan, where there is room for them; their length.
fn list_plan(text: &mut [u8], p: &Plan) -> usize
    requires { Printable p.now }
    ensures { (result ≡ length (accepted_text p.now)) × (text.new ≡ overlay_whole text.old (accepted_text p.now)) }
{
    let mut unused = [0u8; 1];
    let length = put_lines(&mut unused, p);
    if text.len() < length {
        return length;
    }
    put_lines(text, p)
}

// What a call is accepted or refused with.
// Never inlined: its stack is given back before the plan is made, so a call keeps to the stack that the header states.
#[inline(never)]
fn outcome_of(s: &[u8], g: SignatureRead) -> Result<usize, Fault>
    requires { g ≡ signature_answer (signature_of s.now) }
    ensures { result ≡ outcome_for s.now }
{
    plan_planning::call_outcome(s, g)
}

// The printed plan of a signature's bytes, any bytes at all, at the head of `text`; its length is returned. Where `text` is
// too short it is left as it was. Of a refused call no plan is made.
pub fn listing(s: &[u8], text: &mut [u8]) -> usize
    ensures { (result ≡ length (listing_of s.now)) × (text.new ≡ overlay_whole text.old (listing_of s.now)) }
{
    let g = sig_whole::read_signature(s);
    match outcome_of(s, g) {
        Err(fault) => list_refusal(text, fault),
        Ok(_) => list_plan(text, &plan_planning::plan_signature(g)),
    }
}
