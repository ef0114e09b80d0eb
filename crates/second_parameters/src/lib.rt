// Where a parameter and a result are, in the second planner's terms.
#![tactic(auto)]

ghost use Rattle.std.specs.Prelude.{◌≡◌, replicate};
ghost use Rattle.sig_signatures.specs.Limits.{max_arguments};
ghost use Rattle.second_parameters.specs.Values.{run_of, no_parameter};

use sig_signatures::MAX_ARGUMENTS;

// Numbers one after the other: registers, words or bytes. Of none, 0 stands for the first. It is no `Option`: who reads a run asks for
// its first and its count alone, and an agreeing planner and C have the same two numbers.
#[derive(Clone, Copy, Debug, PartialEq, Eq)]
pub struct Run {
    pub first: usize,
    pub count: usize,
}

// Where a parameter is: its general and floating registers; its field, that is its bytes of the parameter area, used or not; the
// bytes there that hold it; the bytes of its copy, where it is passed by reference. The copy is no `Option`: it has two numbers and a mark
// in the first planner and in C too, and a copy of no bytes is passed by reference.
#[derive(Clone, Copy, Debug, PartialEq, Eq)]
pub struct Parameter {
    pub general: Run,
    pub floating: Run,
    pub field: Run,
    pub memory: Run,
    pub copy: Run,
    pub reference: bool,
}

// Where a result is: in general registers, in floating registers, or in memory whose address is in a general register.
#[derive(Clone, Copy, Debug, PartialEq, Eq)]
pub enum Returned {
    Nothing,
    General(Run),
    Floating(Run),
    Hidden(Run),
}

pub const NO_RUN: Run = Run { first: 0, count: 0 };

pub const NO_PARAMETER: Parameter = Parameter {
    general: NO_RUN,
    floating: NO_RUN,
    field: NO_RUN,
    memory: NO_RUN,
    copy: NO_RUN,
    reference: false,
};

pub fn run_of(first: usize, count: usize) -> Run
    ensures { result ≡ run_of first count }
{
    if count == 0 {
        NO_RUN
    } else {
        Run { first, count }
    }
}

pub fn no_parameters() -> [Parameter; MAX_ARGUMENTS]
    ensures { result ≡ replicate max_arguments no_parameter }
{
    [NO_PARAMETER; MAX_ARGUMENTS]
}
