// The second planner for programs that are held to it: its plan and each argument's places, in 64-bit words. It is no part of the library.
#![tactic(auto)]

ghost use Rattle.std.specs.Prelude.{◌≡◌};
ghost use Rattle.sig_signatures.specs.Read.{signature_of};
ghost use Rattle.second_planner.specs.Answer.{second_answer};
ghost use Rattle.c_second.specs.Words.{outcome_words, run_words, returned_words, second_plan_words, place_words, place_at};

use c_answers::Answer;
use second_parameters::{NO_PARAMETER, NO_RUN, Parameter, Returned, Run};
use sig_items::Fault;
use sig_signatures::MAX_ARGUMENTS;

// A result, its kind by the number that C has: 0 none, 1 in general registers, 2 in floating registers, 3 in memory whose address is in a general
// register; with the first and the count of the registers.
#[derive(Clone, Copy, Debug, PartialEq, Eq)]
pub struct ReturnedWords {
    pub kind: u64,
    pub first: u64,
    pub count: u64,
}

// The plan without its arguments' places. An accepted one's answer has the count of items.
#[repr(C)]
#[derive(Clone, Copy)]
pub struct SecondAnswer {
    pub answer: Answer,
    pub convention: u64,
    pub ellipsis: u64,
    pub arguments: u64,
    pub values: u64,
    pub area: u64,
    pub copies: u64,
    pub result: u64,
    pub result_first: u64,
    pub result_count: u64,
}

// The places of one argument: the first and the count of each run; a run of none is 0 and 0.
#[repr(C)]
#[derive(Clone, Copy)]
pub struct SecondPlace {
    pub gpr: u64,
    pub gprs: u64,
    pub fpr: u64,
    pub fprs: u64,
    pub field: u64,
    pub field_length: u64,
    pub memory: u64,
    pub memory_length: u64,
    pub copy: u64,
    pub copy_length: u64,
    pub reference: u64,
}

fn outcome_words(o: Result<usize, Fault>) -> Answer
    ensures { result ≡ outcome_words o }
{
    match o {
        Ok(n) => Answer {
            number: 0,
            place: 0,
            items: n as u64,
        },
        Err(fault) => c_faults::fault_answer(fault),
    }
}

fn run_words(kind: u64, run: Run) -> ReturnedWords
    ensures { result ≡ run_words kind run }
{
    ReturnedWords {
        kind,
        first: run.first as u64,
        count: run.count as u64,
    }
}

fn returned_words(r: Returned) -> ReturnedWords
    ensures { result ≡ returned_words r }
{
    match r {
        Returned::Nothing => run_words(0, NO_RUN),
        Returned::General(run) => run_words(1, run),
        Returned::Floating(run) => run_words(2, run),
        Returned::Hidden(run) => run_words(3, run),
    }
}

fn place_words(p: Parameter) -> SecondPlace
    ensures { result ≡ place_words p }
{
    SecondPlace {
        gpr: p.general.first as u64,
        gprs: p.general.count as u64,
        fpr: p.floating.first as u64,
        fprs: p.floating.count as u64,
        field: p.field.first as u64,
        field_length: p.field.count as u64,
        memory: p.memory.first as u64,
        memory_length: p.memory.count as u64,
        copy: p.copy.first as u64,
        copy_length: p.copy.count as u64,
        reference: u64::from(p.reference),
    }
}

#[unsafe(no_mangle)]
pub extern "C" fn fz_second_plan(sig: &[u8]) -> SecondAnswer
    ensures { result ≡ second_plan_words (second_answer (signature_of sig.now)) }
{
    let p = second_planner::second_plan_of(sig);
    let result = returned_words(p.result);
    let convention = u64::from(p.convention);
    let ellipsis = u64::from(p.ellipsis);
    SecondAnswer {
        answer: outcome_words(p.outcome),
        convention,
        ellipsis,
        arguments: p.count as u64,
        values: p.values as u64,
        area: p.area as u64,
        copies: p.copies as u64,
        result: result.kind,
        result_first: result.first,
        result_count: result.count,
    }
}

// The places of argument number `index`, counted from 0; all 0 where there is none.
#[unsafe(no_mangle)]
pub extern "C" fn fz_second_place(sig: &[u8], index: u64) -> SecondPlace
    ensures { result ≡ place_at (second_answer (signature_of sig.now)) index }
{
    let i = index as usize;
    if i < MAX_ARGUMENTS {
        let plan = second_planner::second_plan_of(sig);
        place_words(plan.parameters[i])
    } else {
        place_words(NO_PARAMETER)
    }
}
