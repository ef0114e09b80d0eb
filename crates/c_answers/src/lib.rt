// The answer of an exported function, as C and Rust see it: `fz_answer` of include/flakuzhen.h, the same in every bridge.
#![tactic(auto)]

// Number 0 is yes; the others are the refusals' numbers, as C has them.
#[repr(C)]
#[derive(Clone, Copy, Debug, PartialEq, Eq)]
pub struct Answer {
    pub number: u64,
    pub place: u64,
    pub items: u64,
}
