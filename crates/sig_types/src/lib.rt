// The types that a signature names: integers, floats and structs, with the size of each. The code of a struct's layout is in the crate above.
#![tactic(auto)]

ghost use Rattle.std.specs.Prelude.{◌≡◌};
ghost use Rattle.base_conventions.specs.Numbers.{word_bytes};
ghost use Rattle.sig_types.specs.Sizes.{integer_size, float_size, size_of, equivalent_of, lacks_float};
ghost use Rattle.sig_types.specs.Codes.{integer_code, float_code, integer_number, float_number};

use base_conventions::Convention;

// The largest size in bytes, and how deep structs may stand in each other.
pub const MAX_SIZE: usize = 256;

pub const MAX_DEPTH: usize = 8;

// An integer type or a pointer. Document 01 calls these whole numbers.
#[derive(Clone, Copy, Debug, PartialEq, Eq)]
pub enum IntegerKind {
    I8,
    U8,
    I16,
    U16,
    I32,
    U32,
    I64,
    U64,
    Pointer,
}

#[derive(Clone, Copy, Debug, PartialEq, Eq)]
pub enum FloatFormat {
    Single,
    Double,
    LongDouble,
}

// A code that no type has.
#[derive(Clone, Copy, Debug, PartialEq, Eq)]
pub struct UnknownCode;

// The float that a struct is equivalent to: that of its only field, however deep it stands. An `Option<FloatFormat>` would have a value more, the long
// double, that no struct has.
#[derive(Clone, Copy, Debug, PartialEq, Eq)]
pub enum Equivalent {
    Nothing,
    Single,
    Double,
}

// A struct's size and alignment in bytes, at most MAX_SIZE and 16, and its equivalent float. Kept small: a signature has a
// table of these.
#[derive(Clone, Copy, Debug, PartialEq, Eq)]
pub struct Shape {
    pub size: u16,
    pub align: u8,
    pub equivalent: Equivalent,
}

#[derive(Clone, Copy, Debug, PartialEq, Eq)]
pub enum ValueType {
    Integer(IntegerKind),
    Float(FloatFormat),
    Struct(Shape),
}

// The integer that a code in a signature's bytes means.
impl TryFrom<u8> for IntegerKind {
    type Error = UnknownCode;

    ghost try_from_gives = { λ code r. r ≡ integer_code code };

    #[tactic(auto, unfolding(crate::specs::Codes::integer_code))]
    fn try_from(code: u8) -> Result<Self, UnknownCode> {
        match code {
            0 => Ok(IntegerKind::I8),
            1 => Ok(IntegerKind::U8),
            2 => Ok(IntegerKind::I16),
            3 => Ok(IntegerKind::U16),
            4 => Ok(IntegerKind::I32),
            5 => Ok(IntegerKind::U32),
            6 => Ok(IntegerKind::I64),
            7 => Ok(IntegerKind::U64),
            8 => Ok(IntegerKind::Pointer),
            _ => Err(UnknownCode),
        }
    }
}

// The float that a code means.
impl TryFrom<u8> for FloatFormat {
    type Error = UnknownCode;

    ghost try_from_gives = { λ code r. r ≡ float_code code };

    #[tactic(auto, unfolding(crate::specs::Codes::float_code))]
    fn try_from(code: u8) -> Result<Self, UnknownCode> {
        match code {
            0 => Ok(FloatFormat::Single),
            1 => Ok(FloatFormat::Double),
            2 => Ok(FloatFormat::LongDouble),
            _ => Err(UnknownCode),
        }
    }
}

// The code of an integer.
impl From<IntegerKind> for u8 {
    ghost from_gives = { λ k code. code ≡ integer_number k };

    fn from(k: IntegerKind) -> u8 {
        match k {
            IntegerKind::I8 => 0,
            IntegerKind::U8 => 1,
            IntegerKind::I16 => 2,
            IntegerKind::U16 => 3,
            IntegerKind::I32 => 4,
            IntegerKind::U32 => 5,
            IntegerKind::I64 => 6,
            IntegerKind::U64 => 7,
            IntegerKind::Pointer => 8,
        }
    }
}

// The code of a float.
impl From<FloatFormat> for u8 {
    ghost from_gives = { λ f code. code ≡ float_number f };

    fn from(f: FloatFormat) -> u8 {
        match f {
            FloatFormat::Single => 0,
            FloatFormat::Double => 1,
            FloatFormat::LongDouble => 2,
        }
    }
}

// Whether a convention has no such float, inside a struct or not.
pub fn lacks_float(c: Convention, inside: bool, f: FloatFormat) -> bool
    ensures { result ≡ lacks_float c inside f }
{
    match c {
        Convention::Ppc64 | Convention::Z | Convention::Ppc64b => false,
        Convention::Aix => match f {
            FloatFormat::Single => false,
            FloatFormat::Double => inside,
            FloatFormat::LongDouble => true,
        },
    }
}

// The size of an integer where a pointer has POINTER bytes. Numbers alone, which are looked up: where a pointer's case asked for
// the convention, each kind would be a jump, and which one comes next can't be foreseen.
fn size_with<const POINTER: usize>(k: IntegerKind) -> usize
    ensures { (c : Convention) → word_bytes c ≡ POINTER → result ≡ integer_size c k }
{
    match k {
        IntegerKind::I8 | IntegerKind::U8 => 1,
        IntegerKind::I16 | IntegerKind::U16 => 2,
        IntegerKind::I32 | IntegerKind::U32 => 4,
        IntegerKind::I64 | IntegerKind::U64 => 8,
        IntegerKind::Pointer => POINTER,
    }
}

// By the word alone, so that it is small enough to be compiled in line.
pub fn integer_size(c: Convention, k: IntegerKind) -> usize
    ensures { result ≡ integer_size c k }
{
    if base_conventions::word_bytes(c) == Convention::AIX_WORD {
        return size_with::<{ Convention::AIX_WORD }>(k);
    }
    size_with::<{ Convention::PPC64_WORD }>(k)
}

pub fn float_size(f: FloatFormat) -> usize
    ensures { result ≡ float_size f }
{
    match f {
        FloatFormat::Single => 4,
        FloatFormat::Double => 8,
        FloatFormat::LongDouble => 16,
    }
}

pub fn size_of(c: Convention, t: ValueType) -> usize
    ensures { result ≡ size_of c t }
{
    match t {
        ValueType::Integer(k) => integer_size(c, k),
        ValueType::Float(f) => float_size(f),
        ValueType::Struct(s) => usize::from(s.size),
    }
}

pub fn equivalent_of(t: ValueType) -> Equivalent
    ensures { result ≡ equivalent_of t }
{
    match t {
        ValueType::Float(FloatFormat::Single) => Equivalent::Single,
        ValueType::Float(FloatFormat::Double) => Equivalent::Double,
        ValueType::Integer(_) | ValueType::Float(FloatFormat::LongDouble) => Equivalent::Nothing,
        ValueType::Struct(s) => s.equivalent,
    }
}

// The fields of a struct so far: where the last one ends, the largest alignment, whether there is none yet, and the float
// that the only one is equivalent to.
#[derive(Clone, Copy, Debug, PartialEq, Eq)]
pub struct Fields {
    pub end: usize,
    pub align: usize,
    pub empty: bool,
    pub equivalent: Equivalent,
}
