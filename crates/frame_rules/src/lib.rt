// The rules of a convention's stack frames as numbers. The definitions of what a request may ask, of its frame's size, of what is saved where and of what may be
// written stand here too; `frame_requests`, `frame_preserving` and `frame_writing` have their code. Every function is written once over a `FrameRules`, so a convention is a value and no code.

#![tactic(auto)]

ghost use Rattle.std.specs.Prelude.{◌≡◌, ◌<◌};
ghost use Rattle.frame_rules.specs.Rules.{in_span};
ghost use Rattle.frame_rules.specs.Frames.{start_frame, with_pointer, has_condition};

// The registers `first` to `last`.
#[derive(Clone, Copy, Debug, PartialEq, Eq)]
pub struct RegisterSpan {
    pub first: usize,
    pub last: usize,
}

// A bank of registers: the range of the first register that a request saves, the last register that a frame may write for having saved it,
// and the volatile and the preserved registers. (A set of one span says it twice.)
#[derive(Clone, Copy)]
pub struct BankRules {
    pub request: RegisterSpan,
    pub last: usize,
    pub volatile: [RegisterSpan; 2],
    pub preserved: [RegisterSpan; 2],
}

// Where the general registers are saved, and where the return address stands.
#[derive(Clone, Copy, Debug, PartialEq, Eq)]
pub enum Linkage {
    // In LR. The general registers are saved below the floating registers, CR and LR in the caller's header at these offsets.
    LinkRegister(usize, usize),
    // In this general register. The general registers are saved in the caller's header, each at its number of words.
    SaveArea(usize),
}

// A convention's numbers.
#[derive(Clone, Copy)]
pub struct FrameRules {
    // Bytes of a general register, and so of a back chain.
    pub word: usize,
    // Bytes of a frame before its outgoing area, and the least length of that area.
    pub header: usize,
    pub least: usize,
    // A frame's size is a multiple of this.
    pub alignment: usize,
    // Bytes from the start's stack pointer to the end of the memory.
    pub room: usize,
    // The floor: bytes under the stack pointer that interrupt code trusts to be free.
    pub floor: usize,
    // The number of the stack pointer's register.
    pub pointer: usize,
    // Saved registers end before this one.
    pub end: usize,
    // The highest address, and so the largest number in a general register.
    pub limit: u64,
    pub gpr: BankRules,
    pub fpr: BankRules,
    pub linkage: Linkage,
}

// A frame: what a request asks for, and what is recorded of an entered one. The general registers from `first_gpr` on and the floating
// registers from `first_fpr` on are saved, CR if `saves_cr`; `locals` and `outgoing` are bytes. A leaf has no frame: its saves lie below
// the stack pointer, which stays.
#[derive(Clone, Copy, Debug, PartialEq, Eq)]
pub struct Frame {
    pub first_gpr: usize,
    pub first_fpr: usize,
    pub saves_cr: bool,
    pub locals: usize,
    pub outgoing: usize,
    pub leaf: bool,
}

// A record that was never used.
pub const NO_FRAME: Frame = Frame {
    first_gpr: 0,
    first_fpr: 0,
    saves_cr: false,
    locals: 0,
    outgoing: 0,
    leaf: false,
};

// The bank that a register to write is named in.
#[derive(Clone, Copy, Debug, PartialEq, Eq)]
pub enum RegisterBank {
    General,
    Floating,
    Link,
    ConditionField,
}

// A machine's registers.
#[derive(Clone, Copy)]
pub struct Registers {
    pub gpr: [u64; 32],
    pub fpr: [u64; 32],
    pub lr: u64,
    pub cr: u32,
}

// ---- requests and sizes

// Is n among the registers of the span?
pub fn in_span(v: RegisterSpan, n: usize) -> bool
    ensures { result ≡ in_span v n }
{
    v.first <= n && n <= v.last
}

// The start as a frame: nothing saved, no locals, no outgoing area asked for.
pub fn start_frame(k: FrameRules) -> Frame
    ensures { result ≡ start_frame k }
{
    Frame {
        first_gpr: k.gpr.request.last,
        first_fpr: k.fpr.request.last,
        saves_cr: false,
        locals: 0,
        outgoing: 0,
        leaf: false,
    }
}

// Has the convention a condition register and a link register?
pub fn has_condition(p: Linkage) -> bool
    ensures { result ≡ has_condition p }
{
    matches!(p, Linkage::LinkRegister(_, _))
}

// The registers with the stack pointer at p.
pub fn with_pointer(k: FrameRules, r: Registers, p: u64) -> Registers
    requires { k.pointer < 32 }
    ensures { result ≡ with_pointer k r p }
{
    let mut q = r;
    q.gpr[k.pointer] = p;
    q
}
