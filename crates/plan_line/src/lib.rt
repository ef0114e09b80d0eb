// The line of one argument in a printed plan: its number, its registers, `mem` where some of it is in memory, its offset, and `ref` where
// it is passed by a pointer to a copy.
#![tactic(auto)]

ghost use Rattle.std.specs.Prelude.{◌≡◌, ◌++◌, ◌+◌, ◌^◌, ◌≤◌, ◌<◌, length};
ghost use Rattle.plan_places.specs.Places.{registers_of, Numbered};
ghost use Rattle.plan_text.specs.Decimals.{decimal};
ghost use Rattle.plan_text.specs.Writing.{Wrote};
ghost use Rattle.plan_line.specs.Words.{offset_mark};
ghost use Rattle.plan_line.specs.Line.{mark_of, place_text, places_text, memory_text, offset_text, reference_text, line_text};

use base_conventions::Convention;
use plan_places::{Bank, Place, Span};
use plan_text::{put_byte, put_bytes, put_decimal, put_labelled};

fn mark_of(bank: Bank) -> &'static [u8]
    ensures { (result.now ≡ mark_of bank) × (length result.now ≤ 2) }
{
    match bank {
        Bank::General => b" r",
        Bank::Floating => b" f",
    }
}

fn put_place(text: &mut [u8], at: usize, p: Place) -> usize
    requires { at < 2 ^ 31 }
    ensures { Wrote text.old text.new at result (place_text p) × (result ≤ at + 22) }
{
    match p {
        Place::Register { bank, number } => {
            let next = put_bytes(text, at, mark_of(bank));
            put_decimal(text, next, number as usize)
        }
        Place::Memory { offset: _ } => put_bytes(text, at, b" mem"),
    }
}

pub fn put_registers(text: &mut [u8], at: usize, s: Span) -> usize
    requires { (at < 2 ^ 30) × Numbered s }
    ensures { Wrote text.old text.new at result (places_text (registers_of s)) × (result ≤ at + 2000) }
{
    let count = s.floating.count as usize + s.general.count as usize;
    let mut next = at;
    for i in 0..count {
        let p = plan_places::register_of(s, i);
        next = put_place(text, next, p);
    }
    next
}

fn put_memory(text: &mut [u8], at: usize, s: Span) -> usize
    requires { at < 2 ^ 31 }
    ensures { Wrote text.old text.new at result (memory_text s) × (result ≤ at + 22) }
{
    let memory = s.memory;
    if 0 < memory.length {
        return put_place(
            text,
            at,
            Place::Memory {
                offset: memory.start,
            },
        );
    }
    at
}

fn put_at(text: &mut [u8], at: usize, offset: usize) -> usize
    requires { at < 2 ^ 31 }
    ensures { Wrote text.old text.new at result (offset_mark ++ decimal offset) × (result ≤ at + 22) }
{
    put_labelled(text, at, b" @", offset)
}

fn put_offset(text: &mut [u8], at: usize, c: Convention, s: Span) -> usize
    requires { at < 2 ^ 31 }
    ensures { Wrote text.old text.new at result (offset_text c s) × (result ≤ at + 22) }
{
    let memory = s.memory;
    match c {
        Convention::Ppc64 | Convention::Aix | Convention::Ppc64b => {
            put_at(text, at, s.home.start as usize)
        }
        Convention::Z => {
            if 0 < memory.length {
                return put_at(text, at, both_abi::Z::HEADER + s.home.start as usize);
            }
            at
        }
    }
}

fn put_reference(text: &mut [u8], at: usize, indirect: bool) -> usize
    requires { at < 2 ^ 31 }
    ensures { Wrote text.old text.new at result (reference_text indirect) × (result ≤ at + 4) }
{
    if indirect {
        return put_bytes(text, at, b" ref");
    }
    at
}

// The line of argument i.
pub fn put_line(text: &mut [u8], at: usize, c: Convention, i: usize, s: Span) -> usize
    requires { (at < 2 ^ 29) × Numbered s }
    ensures { Wrote text.old text.new at result (line_text c i s) × (result ≤ at + 2100) }
{
    let a = put_decimal(text, at, i);
    let b = put_registers(text, a, s);
    let m = put_memory(text, b, s);
    let o = put_offset(text, m, c, s);
    let e = put_reference(text, o, s.indirect);
    put_byte(text, e, 10)
}
