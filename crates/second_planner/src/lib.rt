// A second planner, which knows nothing of the first: any signature's plan, by the structure of its parameters or slot by slot.
#![tactic(auto)]

ghost use Rattle.std.specs.Prelude.{◌≡◌, ◌≤◌, ◌<◌, Ok};
ghost use Rattle.sig_signatures.specs.Read.{signature_of};
ghost use Rattle.sig_signatures.specs.Answer.{signature_answer};
ghost use Rattle.sig_signatures.specs.Types.{types_in, values_of};
ghost use Rattle.sig_signatures.specs.Helpers.{Plannable};
ghost use Rattle.second_planner.specs.Answer.{power_plan, z_plan, no_plan, second_in, straddling_in, second_answer};

use base_conventions::Convention;
use second_parameters::{Parameter, Returned};
use sig_items::Fault;
use sig_signatures::{MAX_ARGUMENTS, SignatureRead};

#[derive(Clone, Copy)]
pub struct SecondPlan {
    pub outcome: Result<usize, Fault>,
    pub convention: Convention,
    pub ellipsis: bool,
    pub result: Returned,
    pub count: usize,
    pub area: usize,
    pub values: usize,
    pub copies: usize,
    pub parameters: [Parameter; MAX_ARGUMENTS],
}

// The bytes of all values.
fn values_in(g: SignatureRead) -> usize
    requires { Plannable g }
    ensures { result ≡ values_of g.convention (types_in g) }
{
    let mut values = 0;
    for a in &g.arguments[..g.count] {
        values += sig_types::size_of(g.convention, a.ty);
    }
    values
}

// An accepted signature's plan on PowerPC, of n items.
fn power_plan(paired: bool, word: usize, n: usize, g: SignatureRead) -> SecondPlan
    requires { (0 < word) × (word ≤ 8) × Plannable g }
    ensures { result ≡ power_plan g.ellipsis paired word n g.convention g.result (types_in g) }
{
    let hidden = second_structure::power_hidden(g.result);
    let s = second_structure::lay_out(word, second_structure::hidden_words(hidden), g);
    let parameters = second_structure::lay_registers(g.ellipsis, paired, word, g, s);
    SecondPlan {
        outcome: Ok(n),
        convention: g.convention,
        ellipsis: g.ellipsis,
        result: second_structure::power_returned(g.convention, word, g.result),
        count: g.count,
        area: second_structure::area_bytes(word, s.words),
        values: values_in(g),
        copies: 0,
        parameters,
    }
}

// An accepted signature's plan on Z, of n items.
fn z_plan(n: usize, g: SignatureRead) -> SecondPlan
    requires { Plannable g }
    ensures { result ≡ z_plan g.ellipsis n g.convention g.result (types_in g) }
{
    let s = second_slot_scan::scan_all(g, second_slot_scan::z_hidden(g.result));
    let parameters = s.parameters;
    SecondPlan {
        outcome: Ok(n),
        convention: g.convention,
        ellipsis: g.ellipsis,
        result: second_slot_scan::z_returned(g.result),
        count: g.count,
        area: s.end.starg,
        values: values_in(g),
        copies: s.end.copies,
        parameters,
    }
}

fn accepted_plan(n: usize, g: SignatureRead) -> SecondPlan
    requires { Plannable g }
    ensures { result ≡ second_in n g.convention g.ellipsis g.result (types_in g) }
{
    match g.convention {
        Convention::Ppc64 => power_plan(false, 8, n, g),
        Convention::Z => z_plan(n, g),
        Convention::Aix => power_plan(false, 4, n, g),
        Convention::Ppc64b => power_plan(true, 8, n, g),
    }
}

fn no_plan(fault: Fault) -> SecondPlan
    ensures { result ≡ no_plan fault }
{
    let parameters = second_parameters::no_parameters();
    SecondPlan {
        outcome: Err(fault),
        convention: Convention::Ppc64,
        ellipsis: false,
        result: Returned::Nothing,
        count: 0,
        area: 0,
        values: 0,
        copies: 0,
        parameters,
    }
}

// The number of the first parameter for which the papers are not clear, counted from 1; 0 where there is none.
fn straddling_in(g: SignatureRead) -> usize
    requires { Plannable g }
    ensures { result ≡ straddling_in g.convention (types_in g) }
{
    match g.convention {
        Convention::Ppc64 | Convention::Aix => second_structure::first_straddling(false, g),
        Convention::Z => 0,
        Convention::Ppc64b => second_structure::first_straddling(true, g),
    }
}

// The plan of n items that were read, by the signature's bytes and what was read of them.
fn clear_plan(sig: &[u8], n: usize, g: SignatureRead) -> SecondPlan
    requires { (g ≡ signature_answer (signature_of sig.now)) × (g.outcome ≡ Ok n) }
    ensures { result ≡ second_answer (signature_of sig.now) }
{
    let straddling = straddling_in(g);
    if straddling == 0 {
        accepted_plan(n, g)
    } else {
        no_plan(sig_reader::unclear_fault(sig, straddling - 1))
    }
}

fn second(sig: &[u8], g: SignatureRead) -> SecondPlan
    requires { g ≡ signature_answer (signature_of sig.now) }
    ensures { result ≡ second_answer (signature_of sig.now) }
{
    match g.outcome {
        Err(fault) => no_plan(fault),
        Ok(n) => clear_plan(sig, n, g),
    }
}

// The second plan of a signature's bytes: any bytes at all.
pub fn second_plan_of(s: &[u8]) -> SecondPlan
    ensures { result ≡ second_answer (signature_of s.now) }
{
    second(s, sig_whole::read_signature(s))
}
