// One type item of a signature: why it is refused, and what reading it gives. The readers are in the crates above.
#![tactic(auto)]

ghost use Rattle.std.specs.Prelude.{◌≡◌, ◌+◌, ◌^◌, ◌<◌};
ghost use Rattle.sig_items.specs.Refusals.{refusal_number};
ghost use Rattle.sig_items.specs.Reading.{later};

use sig_types::ValueType;

// Why a signature is refused, by its reading or, the last, by its plan; its number is the papers'.
#[derive(Clone, Copy, Debug, PartialEq, Eq)]
pub enum Refusal {
    TooLong,
    Truncated,
    UnexpectedTag,
    Malformed,
    LongDoubleInStruct,
    TooDeep,
    TooManyArguments,
    StructTooLarge,
    TrailingBytes,
    FloatNotCarried,
    UnclearPlace,
}

impl From<Refusal> for u64 {
    ghost from_gives = { λ r number. number ≡ refusal_number r };

    fn from(r: Refusal) -> u64 {
        match r {
            Refusal::TooLong => 1,
            Refusal::Truncated => 2,
            Refusal::UnexpectedTag => 3,
            Refusal::Malformed => 4,
            Refusal::LongDoubleInStruct => 5,
            Refusal::TooDeep => 6,
            Refusal::TooManyArguments => 7,
            Refusal::StructTooLarge => 8,
            Refusal::TrailingBytes => 9,
            Refusal::FloatNotCarried => 25,
            Refusal::UnclearPlace => 29,
        }
    }
}

// A refused reading: why and where, and how many headers had passed header room, tag and length room when it stopped.
#[derive(Clone, Copy, Debug, PartialEq, Eq)]
pub struct Fault {
    pub reason: Refusal,
    pub place: usize,
    pub passed: usize,
}

// The same fault where `earlier` headers more had passed before.
pub fn later_by(earlier: usize, f: Fault) -> Fault
    requires { earlier + f.passed < 2 ^ 32 }
    ensures { result ≡ later earlier f }
{
    Fault {
        passed: earlier + f.passed,
        ..f
    }
}

// A type item: its type, where the next item starts and how many items it is with those in it.
#[derive(Clone, Copy, Debug, PartialEq, Eq)]
pub struct Item {
    pub ty: ValueType,
    pub next: usize,
    pub items: usize,
}
