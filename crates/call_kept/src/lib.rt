// The arguments of a call, kept in lent 16-bit words until all tests are made: the type and the span of each, a row of ten words. A table of
// structs can't be lent, only handed on by value; words can, and are cleared and copied once.
#![tactic(auto)]

ghost use Rattle.std.specs.Prelude.{◌≡◌, ◌+◌, ◌*◌, ◌≤◌, length, get_or};
ghost use Rattle.base_words.specs.Splice.{overlay, splice};
ghost use Rattle.call_kept.specs.Helpers.{row_length, Codable, kind_from, format_from, equivalent_code, equivalent_from, type_code, type_from, range_code, range_from, row_of, span_from};

use plan_places::{ByteRange, RegisterRange, Span};
use sig_types::{Equivalent, FloatFormat, IntegerKind, Shape, ValueType};

// The numbers of equivalents, types and ranges are this crate's own, of types of other crates, which can't have a `From` here; and what was kept is
// found again without a refusal, so that no `TryFrom` reads it.

// The words of a row.
pub const ROW: usize = 10;

// Numbers to names and back are looked up, not jumped to: which type comes next can't be foreseen.
fn kind_from(x: u16) -> IntegerKind
    ensures { result ≡ kind_from x }
{
    match x {
        0 => IntegerKind::I8,
        1 => IntegerKind::U8,
        2 => IntegerKind::I16,
        3 => IntegerKind::U16,
        4 => IntegerKind::I32,
        5 => IntegerKind::U32,
        6 => IntegerKind::I64,
        7 => IntegerKind::U64,
        _ => IntegerKind::Pointer,
    }
}

fn format_from(x: u16) -> FloatFormat
    ensures { result ≡ format_from x }
{
    match x {
        0 => FloatFormat::Single,
        1 => FloatFormat::Double,
        _ => FloatFormat::LongDouble,
    }
}

fn equivalent_code(e: Equivalent) -> u16
    ensures { result ≡ equivalent_code e }
{
    match e {
        Equivalent::Nothing => 0,
        Equivalent::Single => 1,
        Equivalent::Double => 2,
    }
}

fn equivalent_from(x: u16) -> Equivalent
    ensures { result ≡ equivalent_from x }
{
    match x {
        0 => Equivalent::Nothing,
        1 => Equivalent::Single,
        _ => Equivalent::Double,
    }
}

// A type in one word: an integer below 16, a float below 32, a struct from 128 on.
fn type_code(t: ValueType) -> u16
    requires { Codable t }
    ensures { result ≡ type_code t }
{
    match t {
        ValueType::Integer(k) => u16::from(u8::from(k)),
        ValueType::Float(f) => 16 + u16::from(u8::from(f)),
        ValueType::Struct(s) => {
            128 * s.size + (4 * (s.align as u16) + equivalent_code(s.equivalent))
        }
    }
}

fn type_from(x: u16) -> ValueType
    ensures { result ≡ type_from x }
{
    match x {
        0..16 => ValueType::Integer(kind_from(x)),
        16..32 => ValueType::Float(format_from(x - 16)),
        _ => ValueType::Struct(Shape {
            size: x / 128,
            align: (x / 4 % 32) as u8,
            equivalent: equivalent_from(x % 4),
        }),
    }
}

fn range_code(r: RegisterRange) -> u16
    ensures { result ≡ range_code r }
{
    256 * (r.first as u16) + (r.count as u16)
}

fn range_from(x: u16) -> RegisterRange
    ensures { result ≡ range_from x }
{
    RegisterRange {
        first: (x / 256) as u8,
        count: (x % 256) as u8,
    }
}

// A row, at the head of `kept`.
fn put_row(kept: &mut [u16], t: ValueType, s: Span)
    requires { (row_length ≤ length kept.old) × Codable t }
    ensures { kept.new ≡ overlay kept.old (row_of t s) }
{
    kept[0] = type_code(t);
    kept[1] = range_code(s.general);
    kept[2] = range_code(s.floating);
    kept[3] = s.home.start;
    kept[4] = s.home.length;
    kept[5] = s.memory.start;
    kept[6] = s.memory.length;
    kept[7] = s.copy.start;
    kept[8] = s.copy.length;
    kept[9] = u16::from(s.indirect);
}

// The row of argument i among those that are kept.
pub fn keep(kept: &mut [u16], i: usize, t: ValueType, s: Span)
    requires { (row_length * i + row_length ≤ length kept.old) × Codable t }
    ensures { kept.new ≡ splice kept.old (row_length * i) (row_of t s) }
{
    let at = ROW * i;
    put_row(&mut kept[at..], t, s);
}

// The type of argument i.
pub fn type_at(kept: &[u16], i: usize) -> ValueType
    requires { row_length * i + row_length ≤ length kept.now }
    ensures { result ≡ type_from (get_or kept.now (row_length * i) 0) }
{
    type_from(kept[ROW * i])
}

// The span of argument i.
pub fn span_at(kept: &[u16], i: usize) -> Span
    requires { row_length * i + row_length ≤ length kept.now }
    ensures { result ≡ span_from kept.now (row_length * i) }
{
    let at = ROW * i;
    Span {
        general: range_from(kept[at + 1]),
        floating: range_from(kept[at + 2]),
        home: ByteRange {
            start: kept[at + 3],
            length: kept[at + 4],
        },
        memory: ByteRange {
            start: kept[at + 5],
            length: kept[at + 6],
        },
        copy: ByteRange {
            start: kept[at + 7],
            length: kept[at + 8],
        },
        indirect: kept[at + 9] != 0,
    }
}
