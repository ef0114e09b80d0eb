// A walker read from six 64-bit words, with refusal 23, and written to them.
#![tactic(auto)]

ghost use Rattle.std.specs.Prelude.{Ok, ◌≡◌, ◌≤◌, length};
ghost use Rattle.call_walker.specs.Walker.{possible, power_possible, z_possible, in_range, lost};
ghost use Rattle.call_walker.specs.Words.{walker_by, walker_in, walker_words, walker_length};

use base_conventions::Convention;
use call_walker::{Counters, MAX_COUNTER, WALKER_WORDS, Walker, WalkerRead};
use plan_places::CallRules;

// Z's stack offset of the area's first byte.
pub const AREA_OFFSET: u64 = both_abi::Z::HEADER as u64;

// ---- reading

fn power_possible(hidden: u64, k: Counters) -> bool
    requires { hidden ≤ 1 }
    ensures { result ≡ power_possible hidden k }
{
    if 13 < k.floating {
        return false;
    }
    if k.general < k.floating + hidden {
        return false;
    }
    k.stack == 0
}

fn z_possible(hidden: u64, k: Counters) -> bool
    requires { hidden ≤ 1 }
    ensures { result ≡ z_possible hidden k }
{
    if k.general < 2 + hidden {
        return false;
    }
    if 7 < k.general {
        return false;
    }
    if 8 < k.floating {
        return false;
    }
    if k.floating % 2 != 0 {
        return false;
    }
    if k.stack < AREA_OFFSET {
        return false;
    }
    if k.stack % 8 != 0 {
        return false;
    }
    if k.stack <= AREA_OFFSET {
        return true;
    }
    if 7 <= k.general {
        return true;
    }
    8 <= k.floating
}

// Whether some arguments, however many, lead to these counters.
fn is_possible(r: CallRules, hidden: bool, k: Counters) -> bool
    ensures { result ≡ possible r hidden k }
{
    let h = u64::from(hidden);
    match r {
        CallRules::Power(_) => power_possible(h, k),
        CallRules::Z => z_possible(h, k),
    }
}

// Whether no counter is over the largest.
fn in_range(k: Counters) -> bool
    ensures { result ≡ in_range k }
{
    if MAX_COUNTER < k.general {
        return false;
    }
    if MAX_COUNTER < k.floating {
        return false;
    }
    k.stack <= MAX_COUNTER
}

fn is_lost(w: Walker) -> bool
    ensures { result ≡ lost w }
{
    let k = w.at;
    let c = w.convention;
    if !in_range(k) {
        return true;
    }
    let r = both_abi::call_rules_of(c);
    !is_possible(r, w.hidden, k)
}

#[tactic(auto, using(crate::proofs::Marks::first_mark))]
fn walker_by(c: Convention, words: &[u64; WALKER_WORDS]) -> WalkerRead
    ensures { result ≡ walker_by (Ok c) words.now }
{
    let ellipsis = words[1];
    let hidden = words[2];
    if 1 < ellipsis {
        return WalkerRead::Lost;
    }
    if 1 < hidden {
        return WalkerRead::Lost;
    }
    let w = Walker {
        convention: c,
        ellipsis: ellipsis == 1,
        hidden: hidden == 1,
        at: Counters {
            general: words[3],
            floating: words[4],
            stack: words[5],
        },
    };
    if is_lost(w) {
        return WalkerRead::Lost;
    }
    WalkerRead::Walker(w)
}

// The walker that six words are, or that they are none's (23).
pub fn walker_in(words: &[u64; WALKER_WORDS]) -> WalkerRead
    ensures { result ≡ walker_in words.now }
{
    match Convention::try_from(words[0]) {
        Ok(c) => walker_by(c, words),
        Err(_) => WalkerRead::Lost,
    }
}

// ---- writing

// All six words of a walker.
pub fn put_walker(words: &mut [u64], w: Walker)
    requires { length words.old ≡ walker_length }
    ensures { words.new ≡ walker_words w }
{
    let c = w.convention;
    let k = w.at;
    words[0] = u64::from(c);
    words[1] = u64::from(w.ellipsis);
    words[2] = u64::from(w.hidden);
    words[3] = k.general;
    words[4] = k.floating;
    words[5] = k.stack;
}
