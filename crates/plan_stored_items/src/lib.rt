// The items of places in a stored plan: an argument's and the result's. As with text, bytes past the end of the buffer are lost and still counted.
#![tactic(auto)]

ghost use Rattle.std.specs.Prelude.{◌≡◌, ◌∷◌, [], ◌++◌, ◌+◌, ◌*◌, ◌/◌, ◌%◌, ◌^◌, ◌≤◌, ◌<◌, length};
ghost use Rattle.plan_places.specs.Helpers.{ResultNumbered, LawfulCalls};
ghost use Rattle.plan_places.specs.Step.{word_of};
ghost use Rattle.plan_text.specs.Writing.{Wrote};
ghost use Rattle.plan_stored_items.specs.Places.{place_bytes, places_bytes, places_in, register_run, no_places, bytes_in_area, listed_from, floating_run, general_run, memory_run, copy_run, argument_item, result_first, result_second, result_item};
ghost use Rattle.plan_stored_items.specs.Helpers.{RunFits, Storable};

use plan_places::{CallRules, RegisterRange, ResultPlaces, Span};
use plan_text::put_byte;

// One place as it is stored.
#[derive(Clone, Copy)]
pub struct StoredPlace {
    pub kind: u8,
    pub bank: u8,
    pub number: u8,
    pub offset: u16,
}

// Places one after the other: each has a number `on` higher and an offset `by` higher than the one before.
#[derive(Clone, Copy)]
pub struct PlaceRun {
    pub kind: u8,
    pub bank: u8,
    pub on: usize,
    pub by: usize,
    pub number: usize,
    pub offset: usize,
    pub count: usize,
}

// The bytes of the longest item.
pub const MAX_ITEM: usize = 658;

// A number in two bytes.
fn put_two(bytes: &mut [u8], at: usize, n: usize) -> usize
    requires { (at < 2 ^ 32) × (n < 65536) }
    ensures { Wrote bytes.old bytes.new at result (n / 256 ∷ n % 256 ∷ []) × (result ≡ at + 2) }
{
    let next = put_byte(bytes, at, (n / 256) as u8);
    put_byte(bytes, next, (n % 256) as u8)
}

// An item's tag and the length of its body.
pub fn put_header(bytes: &mut [u8], at: usize, tag: u8, n: usize) -> usize
    requires { (at < 2 ^ 31) × (n < 65536) }
    ensures { Wrote bytes.old bytes.new at result (tag ∷ n / 256 ∷ n % 256 ∷ []) × (result ≡ at + 3) }
{
    let next = put_byte(bytes, at, tag);
    put_two(bytes, next, n)
}

fn put_place(bytes: &mut [u8], at: usize, p: StoredPlace) -> usize
    requires { at < 2 ^ 31 }
    ensures { Wrote bytes.old bytes.new at result (place_bytes p) × (result ≡ at + 5) }
{
    let a = put_byte(bytes, at, p.kind);
    let b = put_byte(bytes, a, p.bank);
    let d = put_byte(bytes, b, p.number);
    put_two(bytes, d, p.offset as usize)
}

fn put_places(bytes: &mut [u8], at: usize, q: PlaceRun) -> usize
    requires { (at < 2 ^ 30) × RunFits q }
    ensures { Wrote bytes.old bytes.new at result (places_bytes (places_in q)) × (result ≡ at + 5 * q.count) }
{
    let mut number = q.number;
    let mut offset = q.offset;
    let mut next = at;
    for i in 0..q.count {
        let p = StoredPlace {
            kind: q.kind,
            bank: q.bank,
            number: number as u8,
            offset: offset as u16,
        };
        next = put_place(bytes, next, p);
        number += q.on;
        offset += q.by;
    }
    next
}

fn bytes_in_area(rules: CallRules, n: usize) -> usize
    ensures { result ≡ bytes_in_area rules n }
{
    match rules {
        CallRules::Power(_) => n,
        CallRules::Z => 0,
    }
}

fn listed_from(rules: CallRules) -> usize
    ensures { (result ≡ listed_from rules) × (result ≤ 160) }
{
    match rules {
        CallRules::Power(_) => 0,
        CallRules::Z => both_abi::Z::HEADER,
    }
}

// The words in `length` bytes of memory.
fn words_in(rules: CallRules, length: usize) -> usize
    requires { LawfulCalls rules × (length ≤ 264) }
    ensures { (result ≡ length / word_of rules) × (result ≤ 66) }
{
    let word = plan_places::word_of(rules);
    // The usual width by a shift: a division by a variable is slow.
    if word == 8 {
        return length / 8;
    }
    length / word
}

fn register_run(bank: u8, g: RegisterRange, offset: usize, by: usize) -> PlaceRun
    ensures { result ≡ register_run bank g offset by }
{
    PlaceRun {
        kind: 0,
        bank,
        on: 1,
        by,
        number: g.first as usize,
        offset,
        count: g.count as usize,
    }
}

fn floating_run(rules: CallRules, s: Span) -> PlaceRun
    requires { Storable s }
    ensures { (result ≡ floating_run rules s) × RunFits result × (result.count ≤ 32) }
{
    let offset = bytes_in_area(rules, s.home.start as usize);
    let by = bytes_in_area(rules, 8);
    register_run(1, s.floating, offset, by)
}

fn general_run(rules: CallRules, s: Span) -> PlaceRun
    requires { LawfulCalls rules × Storable s }
    ensures { (result ≡ general_run rules s) × RunFits result × (result.count ≤ 32) }
{
    let offset = bytes_in_area(rules, s.home.start as usize);
    let word = plan_places::word_of(rules);
    let by = bytes_in_area(rules, word);
    register_run(0, s.general, offset, by)
}

fn memory_run(rules: CallRules, s: Span) -> PlaceRun
    requires { LawfulCalls rules × Storable s }
    ensures { (result ≡ memory_run rules s) × RunFits result × (result.count ≤ 66) }
{
    let by = plan_places::word_of(rules);
    let from = listed_from(rules);
    let count = words_in(rules, s.memory.length as usize);
    PlaceRun {
        kind: 1,
        bank: 0,
        on: 0,
        by,
        number: 0,
        offset: from + s.memory.start as usize,
        count,
    }
}

fn copy_run(s: Span) -> PlaceRun
    requires { Storable s }
    ensures { (result ≡ copy_run s) × RunFits result × (result.count ≤ 1) }
{
    let count = usize::from(s.indirect);
    PlaceRun {
        kind: 2,
        bank: 0,
        on: 0,
        by: 0,
        number: 0,
        offset: s.copy.start as usize,
        count,
    }
}

// The item of one argument.
pub fn put_argument(bytes: &mut [u8], at: usize, rules: CallRules, s: Span) -> usize
    requires { (at < 2 ^ 29) × LawfulCalls rules × Storable s }
    ensures { Wrote bytes.old bytes.new at result (argument_item rules s) × (result ≤ at + 658) }
{
    let f = floating_run(rules, s);
    let g = general_run(rules, s);
    let m = memory_run(rules, s);
    let k = copy_run(s);
    let n = 5 * (f.count + (g.count + (m.count + k.count)));
    let h = put_header(bytes, at, 0x21, n);
    let i = put_places(bytes, h, f);
    let j = put_places(bytes, i, g);
    let l = put_places(bytes, j, m);
    put_places(bytes, l, k)
}

// The length of that item.
pub fn argument_length(rules: CallRules, s: Span) -> usize
    requires { LawfulCalls rules × Storable s }
    ensures { (result ≡ length (argument_item rules s)) × (result ≤ 658) }
{
    let words = words_in(rules, s.memory.length as usize);
    let copies = usize::from(s.indirect);
    3 + 5 * (s.floating.count as usize + (s.general.count as usize + (words + copies)))
}

fn no_places() -> PlaceRun
    ensures { result ≡ no_places }
{
    PlaceRun {
        kind: 0,
        bank: 0,
        on: 0,
        by: 0,
        number: 0,
        offset: 0,
        count: 0,
    }
}

fn result_first(x: ResultPlaces) -> PlaceRun
    requires { ResultNumbered x }
    ensures { (result ≡ result_first x) × RunFits result × (result.count ≤ 32) }
{
    match x {
        ResultPlaces::Nothing => no_places(),
        ResultPlaces::Registers(s) => register_run(1, s.floating, 0, 0),
        ResultPlaces::Hidden(s) => PlaceRun {
            kind: 3,
            number: s.general.first as usize,
            count: 1,
            ..no_places()
        },
    }
}

fn result_second(x: ResultPlaces) -> PlaceRun
    requires { ResultNumbered x }
    ensures { (result ≡ result_second x) × RunFits result × (result.count ≤ 32) }
{
    match x {
        ResultPlaces::Nothing | ResultPlaces::Hidden(_) => no_places(),
        ResultPlaces::Registers(s) => register_run(0, s.general, 0, 0),
    }
}

// The item of the result.
pub fn put_result(bytes: &mut [u8], at: usize, x: ResultPlaces) -> usize
    requires { (at < 2 ^ 29) × ResultNumbered x }
    ensures { Wrote bytes.old bytes.new at result (result_item x) × (result ≤ at + 323) }
{
    let f = result_first(x);
    let g = result_second(x);
    let n = 5 * (f.count + g.count);
    let h = put_header(bytes, at, 0x22, n);
    let i = put_places(bytes, h, f);
    put_places(bytes, i, g)
}

// The length of that item.
pub fn result_length(x: ResultPlaces) -> usize
    requires { ResultNumbered x }
    ensures { (result ≡ length (result_item x)) × (result ≤ 323) }
{
    let f = result_first(x);
    let g = result_second(x);
    3 + 5 * (f.count + g.count)
}
