// The surface for C and Rust, which include/flakuzhen.h declares: the version, signatures and floats. Each function of the last two calls one
// of the crates below and lays its answer out in 64-bit words.
#![tactic(auto)]

ghost use Rattle.std.specs.Prelude.{◌≡◌, ◌%◌, ◌^◌};
ghost use Rattle.base_ieee.specs.Widening.{widen};
ghost use Rattle.base_ieee.specs.Narrowing.{narrow};
ghost use Rattle.sig_signatures.specs.Read.{signature_of};
ghost use Rattle.c_signatures.specs.Surface.{reading_answer, narrowing_answer, version};

use c_answers::Answer;

// `fz_narrowed`: number 0 is yes, 14 no, as C has them.
#[repr(C)]
#[derive(Clone, Copy)]
pub struct NarrowingAnswer {
    pub number: u64,
    pub place: u64,
    pub bits: u64,
}

// The library's version as one number.
#[unsafe(no_mangle)]
pub extern "C" fn fz_version() -> u64
    ensures { result ≡ version }
{
    10000
}

#[unsafe(no_mangle)]
pub extern "C" fn fz_read_signature(sig: &[u8]) -> Answer
    ensures { result ≡ reading_answer (signature_of sig.now) }
{
    match plan_measuring::outcome_of(sig) {
        Ok(items) => Answer {
            number: 0,
            place: 0,
            items: items as u64,
        },
        Err(fault) => c_faults::fault_answer(fault),
    }
}

// The low 32 bits are widened.
#[unsafe(no_mangle)]
pub extern "C" fn fz_widen(bits: u64) -> u64
    ensures { result ≡ widen (bits % 2 ^ 32) }
{
    base_ieee::widen((bits % 0x1_0000_0000) as u32)
}

#[unsafe(no_mangle)]
pub extern "C" fn fz_narrow(bits: u64) -> NarrowingAnswer
    ensures { result ≡ narrowing_answer (narrow bits) }
{
    match base_ieee::narrow(bits) {
        Some(x) => NarrowingAnswer {
            number: 0,
            place: 0,
            bits: u64::from(x),
        },
        None => NarrowingAnswer {
            number: 14,
            place: 0,
            bits: 0,
        },
    }
}
