// PowerPC as source document 004 works: all parameters are laid out as one structure in memory first, then the registers are laid
// over it.
#![tactic(auto)]

ghost use Rattle.std.specs.Prelude.{◌≡◌, ◌*◌, ◌+◌, ◌≤◌, ◌<◌, ◌^◌};
ghost use Rattle.sig_signatures.specs.Limits.{max_arguments};
ghost use Rattle.sig_signatures.specs.Types.{types_in};
ghost use Rattle.sig_signatures.specs.Helpers.{SmallResult, Plannable};
ghost use Rattle.second_parameters.specs.Values.{no_parameter, table_with};
ghost use Rattle.second_structure.specs.Structure.{words_in, structure_of, hidden_words, area_bytes, field_bytes, over_words, over_floats, over_nothing, floats, laid_over, registers_over, straddles, first_straddling, power_hidden, power_returned};
ghost use Rattle.second_structure.specs.Helpers.{Bounded};
ghost use Rattle.sig_types.specs.Sizes.{max_size};

use base_conventions::Convention;
use second_parameters::{NO_PARAMETER, NO_RUN, Parameter, Returned, Run};
use sig_signatures::{MAX_ARGUMENTS, SignatureRead};
use sig_types::{FloatFormat, ValueType};

// All parameters as one structure: the words of each, and how many words there are.
#[derive(Clone, Copy)]
pub struct Structure {
    pub fields: [Run; MAX_ARGUMENTS],
    pub words: usize,
}

// The words of a parameter with its padding.
fn words_in(word: usize, size: usize) -> usize
    requires { (0 < word) × (word ≤ 8) × (size ≤ max_size) }
    ensures { (result ≡ words_in word size) × (result ≤ 264) }
{
    base_words::round_up(size, word) / word
}

fn bytes_of(word: usize, n: usize) -> usize
    requires { (word ≤ 8) × (n ≤ 2 ^ 20) }
    ensures { result ≡ word * n }
{
    word * n
}

// The structure: each parameter at the next word, from the word `at` on.
pub fn lay_out(word: usize, at: usize, g: SignatureRead) -> Structure
    requires { (0 < word) × (word ≤ 8) × (at ≤ 1) × Plannable g }
    ensures { (result ≡ structure_of g.convention word at (types_in g)) × (result.words ≤ 2 ^ 16) }
{
    let mut fields = [NO_RUN; MAX_ARGUMENTS];
    let mut words = at;
    for (i, a) in g.arguments[..g.count].iter().enumerate() {
        let count = words_in(word, sig_types::size_of(g.convention, a.ty));
        fields[i] = Run {
            first: words,
            count,
        };
        words += count;
    }
    Structure { fields, words }
}

// The bytes of the parameter area of a structure of n words.
pub fn area_bytes(word: usize, n: usize) -> usize
    requires { (word ≤ 8) × (n ≤ 2 ^ 16) }
    ensures { result ≡ area_bytes word n }
{
    bytes_of(word, n.max(8))
}

fn field_bytes(word: usize, f: Run) -> Run
    requires { (word ≤ 8) × (f.first + f.count ≤ 2 ^ 20) }
    ensures { result ≡ field_bytes word f }
{
    second_parameters::run_of(bytes_of(word, f.first), bytes_of(word, f.count))
}

// The first eight words are placed in GPR3 to GPR10, the rest in the parameter area; with an ellipsis there may be FPRs as well.
fn over_words(word: usize, fprs: Run, f: Run) -> Parameter
    requires { (word ≤ 8) × (f.first + f.count ≤ 2 ^ 20) }
    ensures { result ≡ over_words word fprs f }
{
    let end = f.first + f.count;
    let high = f.first.max(8);
    let held = end.min(8).saturating_sub(f.first);
    let stored = end.saturating_sub(high);
    Parameter {
        general: second_parameters::run_of(3 + f.first, held),
        floating: fprs,
        field: field_bytes(word, f),
        memory: second_parameters::run_of(bytes_of(word, high), bytes_of(word, stored)),
        ..NO_PARAMETER
    }
}

// A float in its registers alone.
fn over_floats(word: usize, fprs: Run, f: Run) -> Parameter
    requires { (word ≤ 8) × (f.first + f.count ≤ 2 ^ 20) }
    ensures { result ≡ over_floats word fprs f }
{
    Parameter {
        floating: fprs,
        field: field_bytes(word, f),
        ..NO_PARAMETER
    }
}

// A float for which no register is left.
fn over_nothing(word: usize, f: Run) -> Parameter
    requires { (word ≤ 8) × (f.first + f.count ≤ 2 ^ 20) }
    ensures { result ≡ over_nothing word f }
{
    let field = field_bytes(word, f);
    Parameter {
        field,
        memory: field,
        ..NO_PARAMETER
    }
}

// The FPRs that a parameter asks for.
#[tactic(auto, unfolding(crate::specs::Structure::floats))]
fn floats_of(paired: bool, t: ValueType) -> usize
    ensures { (result ≡ floats paired t) × (result ≤ 2) }
{
    match t {
        ValueType::Integer(_) | ValueType::Struct(_) => 0,
        ValueType::Float(f) => match f {
            FloatFormat::Single | FloatFormat::Double => 1,
            FloatFormat::LongDouble => { if paired { 2 } else { 0 } }
        },
    }
}

// A parameter that asks for `asked` FPRs, where those before it asked for `earlier`.
fn lay_over(ellipsis: bool, word: usize, asked: usize, earlier: usize, f: Run) -> Parameter
    requires { (word ≤ 8) × (f.first + f.count ≤ 2 ^ 20) × (earlier ≤ 2 ^ 20) × (asked ≤ 2) }
    ensures { result ≡ laid_over ellipsis word asked earlier f }
{
    if asked == 0 {
        over_words(word, NO_RUN, f)
    } else if earlier + asked <= 13 {
        let fprs = second_parameters::run_of(1 + earlier, asked);
        if ellipsis {
            over_words(word, fprs, f)
        } else {
            over_floats(word, fprs, f)
        }
    } else if ellipsis {
        over_words(word, NO_RUN, f)
    } else {
        over_nothing(word, f)
    }
}

// The registers over the whole structure.
pub fn lay_registers(
    ellipsis: bool,
    paired: bool,
    word: usize,
    g: SignatureRead,
    s: Structure,
) -> [Parameter; MAX_ARGUMENTS]
    requires { (word ≤ 8) × Plannable g × Bounded s.fields }
    ensures { result ≡ table_with no_parameter (registers_over ellipsis paired word 0 (types_in g) s.fields) }
{
    let mut laid = second_parameters::no_parameters();
    let mut earlier = 0;
    for (i, a) in g.arguments[..g.count].iter().enumerate() {
        let asked = floats_of(paired, a.ty);
        laid[i] = lay_over(ellipsis, word, asked, earlier, s.fields[i]);
        earlier += asked;
    }
    laid
}

// Whether some FPRs are left, but fewer than a parameter asks for.
fn is_straddling(earlier: usize, asked: usize) -> bool
    requires { (earlier ≤ 2 ^ 20) × (asked ≤ 2) }
    ensures { result ≡ straddles earlier asked }
{
    earlier < 13 && 13 < earlier + asked
}

// The number of the first such parameter, counted from 1; 0 where there is none. It is no `Option`: the first planner has the same number,
// and the crate second_agreement states the two equal.
pub fn first_straddling(paired: bool, g: SignatureRead) -> usize
    requires { Plannable g }
    ensures { result ≡ first_straddling paired 0 0 (types_in g) }
{
    let mut earlier = 0;
    for (i, a) in g.arguments[..g.count].iter().enumerate() {
        let asked = floats_of(paired, a.ty);
        if is_straddling(earlier, asked) {
            return i + 1;
        }
        earlier += asked;
    }
    0
}

pub fn power_hidden(r: Option<ValueType>) -> bool
    ensures { result ≡ power_hidden r }
{
    matches!(r, Some(ValueType::Struct(_)))
}

pub fn power_returned(c: Convention, word: usize, r: Option<ValueType>) -> Returned
    requires { (0 < word) × (word ≤ 8) × SmallResult c r }
    ensures { result ≡ power_returned c word r }
{
    match r {
        None => Returned::Nothing,
        Some(t) => match t {
            ValueType::Integer(_) => {
                let n = words_in(word, sig_types::size_of(c, t));
                Returned::General(second_parameters::run_of(3, n))
            }
            ValueType::Float(f) => match f {
                FloatFormat::Single | FloatFormat::Double => {
                    Returned::Floating(second_parameters::run_of(1, 1))
                }
                FloatFormat::LongDouble => Returned::Floating(second_parameters::run_of(1, 2)),
            },
            ValueType::Struct(_) => Returned::Hidden(second_parameters::run_of(3, 1)),
        },
    }
}

pub fn hidden_words(hidden: bool) -> usize
    ensures { (result ≡ hidden_words hidden) × (result ≤ 1) }
{
    usize::from(hidden)
}
