// Any type item: an integer's and a float's, which have none in them, and the reader of an item and that of a struct, which call each other.
#![tactic(auto)]

ghost use Rattle.std.specs.Prelude.{◌≡◌, ◌+◌, ◌≤◌, ◌^◌, ◌<◌, ltb, length};
ghost use Rattle.sig_items.specs.Read.{integer_at, float_of, float_at, struct_at, item_at};
ghost use Rattle.sig_items.specs.Answer.{item_answer, closed_answer};
ghost use Rattle.sig_types.specs.Sizes.{max_depth};
ghost use Rattle.sig_types.specs.Structs.{closed};

use base_conventions::Convention;
use sig_item_headers::fault_here;
use sig_items::{Fault, Item, Refusal};
use sig_types::{Fields, FloatFormat, IntegerKind, ValueType};

// The integer item at `at`, whose body ends at `end`.
pub fn read_integer(s: &[u8], c: Convention, at: usize, end: usize) -> Result<Item, Fault>
    requires { (at + 3 ≤ end) × (end ≤ length s.now) }
    ensures { result ≡ item_answer c (integer_at s.now at end) }
{
    if end - at != 4 {
        return Err(fault_here(Refusal::Malformed, at));
    }
    match IntegerKind::try_from(s[at + 3]) {
        Ok(kind) => Ok(Item {
            ty: ValueType::Integer(kind),
            next: end,
            items: 1,
        }),
        Err(_) => Err(fault_here(Refusal::Malformed, at)),
    }
}

// A float item at `at` that 5 does not refuse: whether the convention has it.
fn float_item(
    c: Convention,
    f: FloatFormat,
    at: usize,
    end: usize,
    depth: usize,
) -> Result<Item, Fault>
    ensures { result ≡ item_answer c (float_of c f (ltb depth max_depth) at end) }
{
    let inside = depth < sig_types::MAX_DEPTH;
    if sig_types::lacks_float(c, inside, f) {
        return Err(fault_here(Refusal::FloatNotCarried, at));
    }
    Ok(Item {
        ty: ValueType::Float(f),
        next: end,
        items: 1,
    })
}

// The float item at `at`, whose body ends at `end`, with `depth` levels of structs left: fewer than MAX_DEPTH inside a struct.
pub fn read_float(
    s: &[u8],
    c: Convention,
    at: usize,
    end: usize,
    depth: usize,
) -> Result<Item, Fault>
    requires { (at + 3 ≤ end) × (end ≤ length s.now) }
    ensures { result ≡ item_answer c (float_at c s.now (ltb depth max_depth) at end) }
{
    if end - at != 4 {
        return Err(fault_here(Refusal::Malformed, at));
    }
    match FloatFormat::try_from(s[at + 3]) {
        Ok(FloatFormat::Single) => float_item(c, FloatFormat::Single, at, end, depth),
        Ok(FloatFormat::Double) => float_item(c, FloatFormat::Double, at, end, depth),
        Ok(FloatFormat::LongDouble) => {
            if depth < sig_types::MAX_DEPTH {
                Err(fault_here(Refusal::LongDoubleInStruct, at))
            } else {
                float_item(c, FloatFormat::LongDouble, at, end, depth)
            }
        }
        Err(_) => Err(fault_here(Refusal::Malformed, at)),
    }
}

// The struct item at `at`, whose fields are all read and whose body ends at `end`; of its items the first is its own header.
fn closed_item(at: usize, end: usize, items: usize, fields: Fields) -> Result<Item, Fault>
    requires { (0 < items) × (fields.end < 2 ^ 32) × (0 < fields.align) × (fields.align ≤ 16) }
    ensures { result ≡ closed_answer at end items (closed fields) }
{
    match sig_layout::close(fields) {
        Some(shape) => Ok(Item {
            ty: ValueType::Struct(shape),
            next: end,
            items,
        }),
        None => Err(Fault {
            reason: Refusal::StructTooLarge,
            place: at,
            passed: items - 1,
        }),
    }
}

// The type item at `at` within `end`, with `depth` levels of structs left: MAX_DEPTH outside any struct.
#[cycle(read_item_read_struct)]
pub fn read_item(
    s: &[u8],
    c: Convention,
    at: usize,
    end: usize,
    depth: usize,
) -> Result<Item, Fault>
    requires { (at ≤ end) × (end ≤ length s.now) × (end ≤ 2 ^ 16) × (depth ≤ max_depth) }
    ensures { result ≡ item_answer c (item_at c depth s.now end at) }
{
    match sig_item_headers::read_body(s, 0x10, 0x12, at, end) {
        Err(reason) => Err(fault_here(reason, at)),
        Ok(to) => match s[at] {
            0x10 => read_integer(s, c, at, to),
            0x11 => read_float(s, c, at, to, depth),
            _ => read_struct(s, c, at, to, depth),
        },
    }
}

// The struct item at `at`, whose body ends at `end`.
#[cycle(read_item_read_struct)]
fn read_struct(s: &[u8], c: Convention, at: usize, end: usize, depth: usize) -> Result<Item, Fault>
    requires { (at + 3 ≤ end) × (end ≤ length s.now) × (end ≤ 2 ^ 16) × (depth ≤ max_depth) }
    ensures { result ≡ item_answer c (struct_at c depth s.now at end) }
{
    if depth == 0 {
        return Err(fault_here(Refusal::TooDeep, at));
    }
    if end - at == 3 {
        return Err(fault_here(Refusal::Malformed, at));
    }
    let mut fields = sig_layout::no_fields();
    let mut next = at + 3;
    let mut items: usize = 1;
    while next < end {
        match read_item(s, c, next, end, depth - 1) {
            Ok(item) => {
                fields = sig_layout::with_field(fields, c, item.ty);
                next = item.next;
                items += item.items;
            }
            Err(fault) => {
                return Err(sig_items::later_by(items, fault));
            }
        }
    }
    closed_item(at, end, items, fields)
}
