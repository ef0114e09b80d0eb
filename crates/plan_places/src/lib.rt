// Where a calling convention puts arguments and results: the types of cursors, spans and places. The code of the steps is in the crates above.
// A convention is a value, `CallRules`; its type, with its constants and its starting cursor, is in `both_abi`.
#![tactic(auto)]

ghost use Rattle.std.specs.Prelude.{◌≡◌, ◌<◌, get_or};
ghost use Rattle.plan_places.specs.Step.{with_ellipsis, word_of};
ghost use Rattle.plan_places.specs.Values.{registers, bytes};
ghost use Rattle.plan_places.specs.Places.{registers_of, Numbered, no_place};
ghost use Rattle.plan_places.specs.Helpers.{register_count};

use base_conventions::Convention;

// The bytes of a register image, and where the FPRs start in it: eight bytes for each register, GPRs first.
pub const IMAGE_BYTES: usize = 512;

pub const FPRS_AT: usize = 256;

// The edition of the PowerPC supplement. In the later one a long double takes two FPRs.
#[derive(Clone, Copy, Debug, PartialEq, Eq)]
pub enum Edition {
    Earlier,
    Later,
}

// What calls on PowerPC differ in: the bytes of a word of the argument list, the edition, and whether the call has an ellipsis.
#[derive(Clone, Copy, Debug, PartialEq, Eq)]
pub struct PowerRules {
    pub word: usize,
    pub edition: Edition,
    pub ellipsis: bool,
}

// A convention's rules for arguments and results.
#[derive(Clone, Copy, Debug, PartialEq, Eq)]
pub enum CallRules {
    Power(PowerRules),
    Z,
}

// What comes next: a general register, a floating register, a byte of the parameter area, a byte of the copies.
#[derive(Clone, Copy, Debug, PartialEq, Eq)]
pub struct Cursor {
    pub general: usize,
    pub floating: usize,
    pub stack: usize,
    pub copies: usize,
}

// Registers of one bank, one after the other.
#[derive(Clone, Copy, Debug, PartialEq, Eq)]
pub struct RegisterRange {
    pub first: u8,
    pub count: u8,
}

// Bytes of the parameter area or of the copies, one after the other.
#[derive(Clone, Copy, Debug, PartialEq, Eq)]
pub struct ByteRange {
    pub start: u16,
    pub length: u16,
}

// What belongs to one argument: its registers; its home in the parameter area, used or not; the part of that home that
// holds it; its copy, where it is passed by a pointer to one. Kept small: a plan has a table of these.
#[derive(Clone, Copy)]
pub struct Span {
    pub general: RegisterRange,
    pub floating: RegisterRange,
    pub home: ByteRange,
    pub memory: ByteRange,
    pub copy: ByteRange,
    pub indirect: bool,
}

// An argument's span, and the cursor of the next argument.
#[derive(Clone, Copy)]
pub struct Placed {
    pub span: Span,
    pub next: Cursor,
}

#[derive(Clone, Copy, Debug, PartialEq, Eq)]
pub enum Bank {
    General,
    Floating,
}

// One place of an argument: a register, or a word of memory at its offset in the parameter area.
#[derive(Clone, Copy, Debug, PartialEq, Eq)]
pub enum Place {
    Register { bank: Bank, number: u8 },
    Memory { offset: u16 },
}

// Where a result is: in registers, or in memory whose address is handed over as a hidden first argument.
#[derive(Clone, Copy)]
pub enum ResultPlaces {
    Nothing,
    Registers(Span),
    Hidden(Span),
}

// Of the words of an argument on PowerPC: how many are in GPRs, and how many in memory. Of the FPRs: how many hold it.
#[derive(Clone, Copy, Debug, PartialEq, Eq)]
pub struct Share {
    pub general: usize,
    pub floating: usize,
    pub memory: usize,
}

// How Z passes an argument: as a float, as an integer, or as a pointer to a copy.
#[derive(Clone, Copy, Debug, PartialEq, Eq)]
pub enum ZClass {
    Float,
    Simple,
    Reference,
}

// What all PowerPC conventions share.
impl PowerRules {
    // The numbers after the last argument registers, r10 and f13.
    pub const PAST_GENERAL: usize = 11;

    pub const PAST_FLOATING: usize = 14;
}

// The bytes of a word of the argument list, and of a pointer.
pub fn word_of(r: CallRules) -> usize
    ensures { result ≡ word_of r }
{
    match r {
        CallRules::Power(f) => f.word,
        CallRules::Z => Convention::Z_WORD,
    }
}

// The rules of a call with an ellipsis, or of one without.
#[tactic(auto, unfolding(crate::specs::Step::with_ellipsis))]
pub fn with_ellipsis(r: CallRules, ellipsis: bool) -> CallRules
    ensures { result ≡ with_ellipsis ellipsis r }
{
    match r {
        CallRules::Power(f) => CallRules::Power(PowerRules { ellipsis, ..f }),
        CallRules::Z => CallRules::Z,
    }
}

pub fn register_range(first: usize, count: usize) -> RegisterRange
    requires { (first < 256) × (count < 256) }
    ensures { result ≡ registers first count }
{
    RegisterRange {
        first: first as u8,
        count: count as u8,
    }
}

pub fn byte_range(start: usize, length: usize) -> ByteRange
    requires { (start < 65536) × (length < 65536) }
    ensures { result ≡ bytes start length }
{
    ByteRange {
        start: start as u16,
        length: length as u16,
    }
}

// A span's register number i, in the order of a listing: floating registers before general ones.
pub fn register_of(s: Span, i: usize) -> Place
    requires { (i < register_count s) × Numbered s }
    ensures { result ≡ get_or (registers_of s) i no_place }
{
    let floats = s.floating.count as usize;
    if i < floats {
        return Place::Register {
            bank: Bank::Floating,
            number: (s.floating.first as usize + i) as u8,
        };
    }
    Place::Register {
        bank: Bank::General,
        number: (s.general.first as usize + (i - floats)) as u8,
    }
}
