// The calling conventions by name and by code: what a signature's first item and a machine's state say. The numbers that calls and frames share
// stand in specs/; the type of each convention, with its constants, is in `both_abi`.
#![tactic(auto)]

ghost use Rattle.std.specs.Prelude.{◌≡◌};
ghost use Rattle.base_conventions.specs.Numbers.{word_bytes, code_of, convention_code};

#[derive(Clone, Copy, Debug, PartialEq, Eq)]
pub enum Convention {
    Ppc64,
    Z,
    Aix,
    Ppc64b,
}

// A code that no convention has.
#[derive(Clone, Copy, Debug, PartialEq, Eq)]
pub struct UnknownConvention;

// What the crates below a convention's type need of its numbers: the bytes of a word, and the code.
impl Convention {
    pub const PPC64_WORD: usize = 8;

    pub const Z_WORD: usize = 8;

    pub const AIX_WORD: usize = 4;

    pub const PPC64B_WORD: usize = Self::PPC64_WORD;

    pub const PPC64_CODE: u64 = 1;

    pub const Z_CODE: u64 = 2;

    pub const AIX_CODE: u64 = 3;

    pub const PPC64B_CODE: u64 = 4;
}

// The bytes of a word.
pub fn word_bytes(c: Convention) -> usize
    ensures { result ≡ word_bytes c }
{
    match c {
        Convention::Ppc64 => Convention::PPC64_WORD,
        Convention::Z => Convention::Z_WORD,
        Convention::Aix => Convention::AIX_WORD,
        Convention::Ppc64b => Convention::PPC64B_WORD,
    }
}

// The code of a convention.
impl From<Convention> for u64 {
    ghost from_gives = { λ c code. code ≡ code_of c };

    fn from(c: Convention) -> u64 {
        match c {
            Convention::Ppc64 => Convention::PPC64_CODE,
            Convention::Z => Convention::Z_CODE,
            Convention::Aix => Convention::AIX_CODE,
            Convention::Ppc64b => Convention::PPC64B_CODE,
        }
    }
}

// The convention of a code.
impl TryFrom<u64> for Convention {
    type Error = UnknownConvention;

    ghost try_from_gives = { λ code r. r ≡ convention_code code };

    #[tactic(auto, unfolding(crate::specs::Numbers::convention_code))]
    fn try_from(code: u64) -> Result<Self, UnknownConvention> {
        match code {
            Convention::PPC64_CODE => Ok(Convention::Ppc64),
            Convention::Z_CODE => Ok(Convention::Z),
            Convention::AIX_CODE => Ok(Convention::Aix),
            Convention::PPC64B_CODE => Ok(Convention::Ppc64b),
            _ => Err(UnknownConvention),
        }
    }
}
