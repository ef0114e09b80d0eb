// What a plan is: for each argument its registers, memory and copy; the sizes of the parameter area, the values and the copies; the places of
// the result.
#![tactic(auto)]

use base_conventions::Convention;
use plan_places::{ResultPlaces, Span};
use sig_items::Fault;
use sig_signatures::MAX_ARGUMENTS;

// The plan of a signature, or the reader's refusal. `ellipsis` says whether the signature has one; `area` is the size of the parameter area, `values`
// that of all arguments' values, and `copies` the end of the last copy. Of `spans` the first `count` belong to arguments, the others to none. A
// refused signature has a plan of nothing.
#[derive(Clone, Copy)]
pub struct Plan {
    pub outcome: Result<usize, Fault>,
    pub convention: Convention,
    pub ellipsis: bool,
    pub result: ResultPlaces,
    pub count: usize,
    pub area: usize,
    pub values: usize,
    pub copies: usize,
    pub spans: [Span; MAX_ARGUMENTS],
}

// A plan's outcome and sizes, without its places.
#[derive(Clone, Copy)]
pub struct Measured {
    pub outcome: Result<usize, Fault>,
    pub area: usize,
    pub values: usize,
    pub copies: usize,
}
