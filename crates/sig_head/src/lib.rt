// Reads what stands before a signature's arguments: the convention, the result's type and the ellipsis.
#![tactic(auto)]

ghost use Rattle.std.specs.Prelude.{◌≡◌, ◌+◌, ◌^◌, ◌≤◌, ◌<◌, length};
ghost use Rattle.sig_items.specs.Read.{body_at};
ghost use Rattle.sig_signatures.specs.Helpers.{body_answer};
ghost use Rattle.sig_signatures.specs.Read.{convention_at, result_in, result_at, ellipsis_at, head_after, head_of};
ghost use Rattle.sig_signatures.specs.Answer.{convention_answer, result_answer, ellipsis_answer, head_answer};

use base_conventions::Convention;
use sig_item_headers::{fault_here, read_body};
use sig_items::{Fault, Refusal};
use sig_signatures::{EllipsisItem, Head, ResultItem};

// The most bytes that a signature may have: `max_length` of crates/sig_signatures/specs/Limits.antt.
pub const MAX_LENGTH: usize = 16384;

// The header of the item with this tag, at `at`: where its body ends.
fn enter_item(s: &[u8], tag: u8, at: usize) -> Result<usize, Fault>
    requires { at ≤ length s.now }
    ensures { result ≡ body_answer at (body_at s.now tag tag (length s.now) at) }
{
    match read_body(s, tag, tag, at, s.len()) {
        Ok(to) => Ok(to),
        Err(reason) => Err(fault_here(reason, at)),
    }
}

// The first item, at 0.
fn read_convention(s: &[u8]) -> Result<Convention, Fault>
    ensures { result ≡ convention_answer (convention_at s.now) }
{
    let to = enter_item(s, 0x01, 0)?;
    if to != 4 {
        return Err(fault_here(Refusal::Malformed, 0));
    }
    match Convention::try_from(u64::from(s[3])) {
        Ok(c) => Ok(c),
        Err(_) => Err(fault_here(Refusal::Malformed, 0)),
    }
}

// The result's type, in the second item's body from `at` to `end`.
fn read_result_body(s: &[u8], c: Convention, at: usize, end: usize) -> Result<ResultItem, Fault>
    requires { (at ≤ end) × (end ≤ length s.now) × (end ≤ 2 ^ 16) }
    ensures { result ≡ result_answer c (result_in c s.now at end) }
{
    if at == end {
        return Ok(ResultItem {
            ty: None,
            next: end,
            items: 1,
        });
    }
    match sig_nested_items::read_item(s, c, at, end, sig_types::MAX_DEPTH) {
        Err(fault) => Err(sig_items::later_by(1, fault)),
        Ok(item) => {
            let counted = 1 + item.items;
            if item.next < end {
                return Err(Fault {
                    reason: Refusal::Malformed,
                    place: item.next,
                    passed: counted,
                });
            }
            Ok(ResultItem {
                ty: Some(item.ty),
                next: end,
                items: counted,
            })
        }
    }
}

// The second item, at `at`.
fn read_result(s: &[u8], c: Convention, at: usize) -> Result<ResultItem, Fault>
    requires { (at ≤ length s.now) × (length s.now ≤ 2 ^ 16) }
    ensures { result ≡ result_answer c (result_at c s.now at) }
{
    let to = enter_item(s, 0x02, at)?;
    read_result_body(s, c, at + 3, to)
}

// The ellipsis's item, at `at`: mostly there is none, which one byte says.
fn read_ellipsis(s: &[u8], at: usize) -> Result<EllipsisItem, Fault>
    requires { (at ≤ length s.now) × (length s.now ≤ 2 ^ 16) }
    ensures { result ≡ ellipsis_answer (ellipsis_at s.now at) }
{
    if at == s.len() || s[at] != 0x04 {
        return Ok(EllipsisItem {
            present: false,
            next: at,
            items: 0,
        });
    }
    let to = enter_item(s, 0x04, at)?;
    if to != at + 3 {
        return Err(fault_here(Refusal::Malformed, at));
    }
    Ok(EllipsisItem {
        present: true,
        next: to,
        items: 1,
    })
}

// The second item, the ellipsis and the last item's header.
fn read_head_after(s: &[u8], c: Convention) -> Result<Head, Fault>
    requires { (4 ≤ length s.now) × (length s.now ≤ 2 ^ 16) }
    ensures { result ≡ head_answer (head_after s.now c 4 1) }
{
    let result = match read_result(s, c, 4) {
        Ok(item) => item,
        Err(fault) => return Err(sig_items::later_by(1, fault)),
    };
    let counted = 1 + result.items;
    let ellipsis = match read_ellipsis(s, result.next) {
        Ok(item) => item,
        Err(fault) => return Err(sig_items::later_by(counted, fault)),
    };
    let earlier = counted + ellipsis.items;
    let last = ellipsis.next;
    match read_body(s, 0x03, 0x03, last, s.len()) {
        Err(reason) => Err(Fault {
            reason,
            place: last,
            passed: earlier,
        }),
        Ok(end) => Ok(Head {
            convention: c,
            result: result.ty,
            ellipsis: ellipsis.present,
            at: last + 3,
            end,
            earlier,
        }),
    }
}

// All that comes before the arguments, of any bytes at all. No table of arguments is made here: what plans without one starts
// from this.
pub fn read_head(s: &[u8]) -> Result<Head, Fault>
    ensures { result ≡ head_answer (head_of s.now) }
{
    if MAX_LENGTH < s.len() {
        return Err(fault_here(Refusal::TooLong, 0));
    }
    let c = read_convention(s)?;
    read_head_after(s, c)
}
