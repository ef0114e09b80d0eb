// What stands at a place of any bytes: an item's header, its body, its type. Functions over bytes and numbers, which a reader is made of.
#![tactic(auto)]

ghost use Rattle.std.specs.Prelude.{◌≡◌};
ghost use Rattle.sig_items.specs.Answer.{item_answer};
ghost use Rattle.sig_stepping.specs.Step.{end_in, left_at, body_in, header_in, body_start, body_end, type_in, place_after};

use base_conventions::Convention;
use sig_item_headers::fault_here;
use sig_items::{Fault, Item, Refusal};

// An item's header: its tag and where its body ends.
#[derive(Clone, Copy, Debug, PartialEq, Eq)]
pub struct Header {
    pub tag: u8,
    pub end: usize,
}

// The end of a part: never past the bytes.
#[tactic(auto, unfolding(crate::specs::Step::end_in))]
fn end_in(s: &[u8], end: usize) -> usize
    ensures { result ≡ end_in s.now end }
{
    end.min(s.len())
}

// How many bytes of a part are left from `at` on.
#[tactic(auto, unfolding(crate::specs::Step::left_at))]
pub fn left_at(s: &[u8], at: usize, end: usize) -> usize
    ensures { result ≡ left_at s.now at end }
{
    end_in(s, end).saturating_sub(at)
}

// The header of the item at `at`, whatever its tag.
fn body_in(s: &[u8], at: usize, end: usize) -> Result<usize, Refusal>
    ensures { result ≡ body_in s.now at end }
{
    if sig_head::MAX_LENGTH < s.len() {
        return Err(Refusal::TooLong);
    }
    let to = end_in(s, end);
    if to < at {
        return Err(Refusal::Truncated);
    }
    sig_item_headers::read_body(s, 0x00, 0xff, at, to)
}

// The same, with the item's tag.
#[tactic(auto, unfolding(crate::specs::Step::header_in))]
pub fn header_in(s: &[u8], at: usize, end: usize) -> Result<Header, Refusal>
    ensures { result ≡ header_in s.now at end }
{
    let to = body_in(s, at, end)?;
    Ok(Header {
        tag: s[at],
        end: to,
    })
}

// Where the item's body starts; `at` if the header is refused.
pub fn body_start(s: &[u8], at: usize, end: usize) -> usize
    ensures { result ≡ body_start s.now at end }
{
    match body_in(s, at, end) {
        Ok(_) => at + 3,
        Err(_) => at,
    }
}

// Where the item's body ends; `at` if the header is refused.
#[tactic(auto, unfolding(crate::specs::Step::body_end))]
pub fn body_end(s: &[u8], at: usize, end: usize) -> usize
    ensures { result ≡ body_end s.now at end }
{
    body_in(s, at, end).unwrap_or(at)
}

// The type item at `at`, outside any struct.
pub fn type_in(s: &[u8], at: usize, end: usize, c: Convention) -> Result<Item, Fault>
    ensures { result ≡ item_answer c (type_in c s.now at end) }
{
    if sig_head::MAX_LENGTH < s.len() {
        return Err(fault_here(Refusal::TooLong, 0));
    }
    let to = end_in(s, end);
    if to < at {
        return Err(fault_here(Refusal::Truncated, at));
    }
    sig_nested_items::read_item(s, c, at, to, sig_types::MAX_DEPTH)
}

// The place after an item that was read; a reader stays where it is after a refusal.
pub fn place_after(item: Result<Item, Fault>, at: usize) -> usize
    ensures { result ≡ place_after item at }
{
    match item {
        Ok(item) => item.next,
        Err(_) => at,
    }
}
