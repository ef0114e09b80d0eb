// Z slot by slot, as source document 001 works: each argument is put in the next floating register, general register or stack slot.
#![tactic(auto)]

ghost use Rattle.std.specs.Prelude.{◌≡◌, ◌≤◌, ◌^◌};
ghost use Rattle.sig_signatures.specs.Types.{types_in};
ghost use Rattle.sig_signatures.specs.Helpers.{Plannable};
ghost use Rattle.second_slot_scan.specs.Slots.{initial, double_or_float, other_size, copied, copy_at, in_floating, in_general, in_other, slot_by, slot_of, scanned_of, z_hidden, z_returned};
ghost use Rattle.second_slot_scan.specs.Helpers.{RoomyScan};
ghost use Rattle.sig_types.specs.Sizes.{max_size};

use second_parameters::{NO_PARAMETER, NO_RUN, Parameter, Returned, Run};
use sig_signatures::{MAX_ARGUMENTS, SignatureRead};
use sig_types::{Equivalent, FloatFormat, ValueType};

// The last floating register and the last general register that an argument has: f6 and r6.
const LAST_FLOATING: usize = 6;

const LAST_GENERAL: usize = 6;

// 001's gr, fr and starg, and the end of the copies.
#[derive(Clone, Copy, Debug, PartialEq, Eq)]
pub struct Scan {
    pub gr: usize,
    pub fr: usize,
    pub starg: usize,
    pub copies: usize,
}

// The copy of an argument that is passed by reference, and the end of the copies. It is no `Option`: `Parameter` says why.
#[derive(Clone, Copy, Debug, PartialEq, Eq)]
pub struct Copied {
    pub bytes: Run,
    pub end: usize,
    pub reference: bool,
}

#[derive(Clone, Copy, Debug, PartialEq, Eq)]
pub struct ScannedSlot {
    pub parameter: Parameter,
    pub next: Scan,
}

#[derive(Clone, Copy)]
pub struct Scanned {
    pub parameters: [Parameter; MAX_ARGUMENTS],
    pub end: Scan,
}

fn double_or_float(t: ValueType) -> bool
    ensures { result ≡ double_or_float t }
{
    matches!(
        sig_types::equivalent_of(t),
        Equivalent::Single | Equivalent::Double
    )
}

fn other_size(n: usize) -> bool
    ensures { result ≡ other_size n }
{
    !matches!(n, 1 | 2 | 4 | 8)
}

// Whether an argument is passed as a pointer to a copy.
#[tactic(auto, unfolding(crate::specs::Slots::copied))]
fn is_copied(t: ValueType, size: usize) -> bool
    ensures { result ≡ copied t size }
{
    match t {
        ValueType::Integer(_) => false,
        ValueType::Float(f) => matches!(f, FloatFormat::LongDouble),
        ValueType::Struct(s) => match s.equivalent {
            Equivalent::Nothing => other_size(size),
            Equivalent::Single | Equivalent::Double => false,
        },
    }
}

fn copy_at(reference: bool, at: usize, size: usize) -> Copied
    requires { (at ≤ 2 ^ 20) × (size ≤ max_size) }
    ensures { result ≡ copy_at reference at size }
{
    if reference {
        let start = base_words::round_up(at, 8);
        Copied {
            bytes: second_parameters::run_of(start, size),
            end: start + size,
            reference,
        }
    } else {
        Copied {
            bytes: NO_RUN,
            end: at,
            reference,
        }
    }
}

fn in_floating(s: Scan, k: Copied) -> ScannedSlot
    requires { s.fr ≤ 2 ^ 20 }
    ensures { result ≡ in_floating s k }
{
    ScannedSlot {
        parameter: Parameter {
            floating: second_parameters::run_of(s.fr, 1),
            copy: k.bytes,
            reference: k.reference,
            ..NO_PARAMETER
        },
        next: Scan {
            fr: s.fr + 2,
            copies: k.end,
            ..s
        },
    }
}

fn in_general(s: Scan, k: Copied) -> ScannedSlot
    requires { s.gr ≤ 2 ^ 20 }
    ensures { result ≡ in_general s k }
{
    ScannedSlot {
        parameter: Parameter {
            general: second_parameters::run_of(s.gr, 1),
            copy: k.bytes,
            reference: k.reference,
            ..NO_PARAMETER
        },
        next: Scan {
            gr: s.gr + 1,
            copies: k.end,
            ..s
        },
    }
}

fn in_other(s: Scan, k: Copied) -> ScannedSlot
    requires { s.starg ≤ 2 ^ 20 }
    ensures { result ≡ in_other s k }
{
    let word = second_parameters::run_of(s.starg, 8);
    ScannedSlot {
        parameter: Parameter {
            field: word,
            memory: word,
            copy: k.bytes,
            reference: k.reference,
            ..NO_PARAMETER
        },
        next: Scan {
            starg: s.starg + 8,
            copies: k.end,
            ..s
        },
    }
}

fn slot_by(float: bool, s: Scan, k: Copied) -> ScannedSlot
    requires { RoomyScan s }
    ensures { result ≡ slot_by float s k }
{
    if float {
        if LAST_FLOATING < s.fr {
            in_other(s, k)
        } else {
            in_floating(s, k)
        }
    } else if LAST_GENERAL < s.gr {
        in_other(s, k)
    } else {
        in_general(s, k)
    }
}

fn slot_for(s: Scan, t: ValueType, size: usize) -> ScannedSlot
    requires { RoomyScan s × (size ≤ max_size) }
    ensures { result ≡ slot_of s t size }
{
    let k = copy_at(is_copied(t, size), s.copies, size);
    slot_by(double_or_float(t), s, k)
}

fn start_of(hidden: bool) -> Scan
    ensures { result ≡ initial hidden }
{
    Scan {
        gr: if hidden { 3 } else { 2 },
        fr: 0,
        starg: 0,
        copies: 0,
    }
}

// The slots of all arguments, one after the other.
pub fn scan_all(g: SignatureRead, hidden: bool) -> Scanned
    requires { Plannable g }
    ensures { result ≡ scanned_of g.convention (initial hidden) (types_in g) }
{
    let mut parameters = second_parameters::no_parameters();
    let mut end = start_of(hidden);
    for (i, a) in g.arguments[..g.count].iter().enumerate() {
        let slot = slot_for(end, a.ty, sig_types::size_of(g.convention, a.ty));
        parameters[i] = slot.parameter;
        end = slot.next;
    }
    Scanned { parameters, end }
}

pub fn z_hidden(r: Option<ValueType>) -> bool
    ensures { result ≡ z_hidden r }
{
    matches!(
        r,
        Some(ValueType::Float(FloatFormat::LongDouble) | ValueType::Struct(_))
    )
}

pub fn z_returned(r: Option<ValueType>) -> Returned
    ensures { result ≡ z_returned r }
{
    match r {
        None => Returned::Nothing,
        Some(t) => match t {
            ValueType::Integer(_) => Returned::General(second_parameters::run_of(2, 1)),
            ValueType::Float(f) => match f {
                FloatFormat::Single | FloatFormat::Double => {
                    Returned::Floating(second_parameters::run_of(0, 1))
                }
                FloatFormat::LongDouble => Returned::Hidden(second_parameters::run_of(2, 1)),
            },
            ValueType::Struct(_) => Returned::Hidden(second_parameters::run_of(2, 1)),
        },
    }
}
