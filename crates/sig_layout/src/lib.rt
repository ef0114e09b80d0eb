// The layout of a struct: its fields one after the other, each at the next multiple of its alignment.
#![tactic(auto)]

ghost use Rattle.std.specs.Prelude.{◌≡◌, ◌^◌, ◌≤◌, ◌<◌};
ghost use Rattle.sig_types.specs.Sizes.{size_of, align_of, Sized};
ghost use Rattle.sig_types.specs.Structs.{no_fields, with_field, equivalent_after, closed};

use base_conventions::Convention;
use sig_types::{Equivalent, Fields, Shape, ValueType};

// The alignment of a type that has this size: all but structs are aligned by their size, which is looked up once.
fn align_of(c: Convention, t: ValueType, size: usize) -> usize
    requires { size ≡ size_of c t }
    ensures { result ≡ align_of c t }
{
    match t {
        ValueType::Integer(_) | ValueType::Float(_) => size,
        ValueType::Struct(s) => usize::from(s.align),
    }
}

fn equivalent_after(empty: bool, t: ValueType) -> Equivalent
    ensures { result ≡ equivalent_after empty t }
{
    if empty {
        sig_types::equivalent_of(t)
    } else {
        Equivalent::Nothing
    }
}

pub fn no_fields() -> Fields
    ensures { result ≡ no_fields }
{
    Fields {
        end: 0,
        align: 1,
        empty: true,
        equivalent: Equivalent::Nothing,
    }
}

// One field more, at the next multiple of its alignment.
pub fn with_field(l: Fields, c: Convention, t: ValueType) -> Fields
    requires { (l.end < 2 ^ 32) × Sized c t }
    ensures { result ≡ with_field c l t }
{
    let size = sig_types::size_of(c, t);
    let a = align_of(c, t, size);
    let start = base_words::round_up(l.end, a);
    Fields {
        end: start + size,
        align: l.align.max(a),
        empty: false,
        equivalent: equivalent_after(l.empty, t),
    }
}

// The struct of these fields, unless it is too large.
pub fn close(l: Fields) -> Option<Shape>
    requires { (l.end < 2 ^ 32) × (0 < l.align) × (l.align ≤ 16) }
    ensures { result ≡ closed l }
{
    let size = base_words::round_up(l.end, l.align);
    if sig_types::MAX_SIZE < size {
        return None;
    }
    Some(Shape {
        size: size as u16,
        align: l.align as u8,
        equivalent: l.equivalent,
    })
}
