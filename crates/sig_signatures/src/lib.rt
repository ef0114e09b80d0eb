// What a signature says: the convention, the result's type, whether it has an ellipsis, and the types of 0 to 128 arguments.
#![tactic(auto)]

ghost use Rattle.std.specs.Prelude.{◌≡◌};
ghost use Rattle.sig_signatures.specs.Answer.{no_arguments};

use base_conventions::Convention;
use sig_items::Fault;
use sig_types::{IntegerKind, ValueType};

// The most arguments: `max_arguments` of specs/Limits.antt.
pub const MAX_ARGUMENTS: usize = 128;

// Room for what is kept of arguments is cleared before it is used, so that a little of it is worth a test: an argument takes three bytes or more, so
// that room for this many is enough where their part has at most FEW_BYTES.
pub const FEW_ARGUMENTS: usize = 12;

pub const FEW_BYTES: usize = 3 * FEW_ARGUMENTS;

#[derive(Clone, Copy, Debug, PartialEq, Eq)]
pub struct Argument {
    pub ty: ValueType,
}

// The answer on a signature: the count of items, or why it is refused. A refused one has no result, no ellipsis and no arguments; the places of the
// table past `count` hold an i8.
#[derive(Clone, Copy)]
pub struct SignatureRead {
    pub outcome: Result<usize, Fault>,
    pub convention: Convention,
    pub result: Option<ValueType>,
    pub ellipsis: bool,
    pub count: usize,
    pub arguments: [Argument; MAX_ARGUMENTS],
}

// The second item: the result's type, if there is a result, the place after it and the count of its items.
#[derive(Clone, Copy, Debug, PartialEq, Eq)]
pub struct ResultItem {
    pub ty: Option<ValueType>,
    pub next: usize,
    pub items: usize,
}

// The ellipsis's item, or none, with the place of the last item and the count of its items.
#[derive(Clone, Copy, Debug, PartialEq, Eq)]
pub struct EllipsisItem {
    pub present: bool,
    pub next: usize,
    pub items: usize,
}

// What stands before the arguments: the convention, the result's type and whether there is an ellipsis; the arguments' bytes are those from `at` to `end`,
// and `earlier` items came before theirs.
#[derive(Clone, Copy, Debug, PartialEq, Eq)]
pub struct Head {
    pub convention: Convention,
    pub result: Option<ValueType>,
    pub ellipsis: bool,
    pub at: usize,
    pub end: usize,
    pub earlier: usize,
}

// A table with no argument in it.
pub fn no_arguments() -> [Argument; MAX_ARGUMENTS]
    ensures { result ≡ no_arguments }
{
    [Argument {
        ty: ValueType::Integer(IntegerKind::I8),
    }; MAX_ARGUMENTS]
}
