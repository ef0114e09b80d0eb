// Each convention as one type: its constants, and its rules for calls and for frames. The functions below the types go from a `Convention` to what its
// type says; its starting cursor and its fresh machine are written once over them.
#![tactic(auto)]

ghost use Rattle.std.specs.Prelude.{◌≡◌, length};
ghost use Rattle.base_conventions.specs.Numbers.{least_area};
ghost use Rattle.plan_places.specs.declared.Edition.{Edition};
ghost use Rattle.plan_places.specs.Step.{power, rules_of, fresh_cursor};
ghost use Rattle.frame_rules.specs.Rules.{power_gpr, power_fpr, rules};
ghost use Rattle.frame_machine.specs.Machine.{start_outcome, start_memory};

use base_conventions::Convention;
use frame_machine::FrameOutcome;
use frame_rules::{BankRules, FrameRules, Linkage, RegisterSpan, Registers};
use plan_places::{Cursor, Edition, PowerRules};

// PPC64: document 000.
#[derive(Clone, Copy)]
pub struct Ppc64 {}

impl Ppc64 {
    // The bytes of a word: of a pointer, a general register, a back chain and a place of the argument list.
    pub const WORD: usize = Convention::PPC64_WORD;
    // The bytes of a frame's header, below the parameter area.
    pub const HEADER: usize = 48;
    // What the stack pointer is a multiple of.
    pub const ALIGNMENT: usize = 16;
    // The words of the least parameter area.
    pub const LEAST_WORDS: usize = 8;
    // The first argument registers.
    pub const FIRST_GENERAL: usize = 3;

    pub const FIRST_FLOATING: usize = 1;
    // The bytes from the start's stack pointer to the end of the memory.
    pub const START_ROOM: usize = 112;

    // The bytes under the stack pointer that interrupt code trusts to be free.
    pub const FLOOR: usize = 288;
    // Saves start at this register.
    pub const FIRST_SAVED: usize = 14;

    pub const STACK_POINTER: usize = 1;
    // Where CR and LR are saved in the caller's header.
    pub const CR_SLOT: usize = 8;

    pub const LR_SLOT: usize = 16;

    pub fn call_rules() -> plan_places::CallRules
        ensures { result ≡ rules_of Convention.Ppc64 }
    {
        earlier(Self::WORD)
    }

    pub fn frame_rules() -> FrameRules
        ensures { result ≡ rules Convention.Ppc64 }
    {
        FrameRules {
            word: Self::WORD,
            header: Self::HEADER,
            least: Self::WORD * Self::LEAST_WORDS,
            alignment: Self::ALIGNMENT,
            room: Self::START_ROOM,
            floor: Self::FLOOR,
            pointer: Self::STACK_POINTER,
            end: 32,
            limit: 18446744073709551615,
            gpr: power_gpr(Self::FIRST_SAVED),
            fpr: power_fpr(),
            linkage: Linkage::LinkRegister(Self::CR_SLOT, Self::LR_SLOT),
        }
    }
}

// Z: document 001.
#[derive(Clone, Copy)]
pub struct Z {}

impl Z {
    pub const WORD: usize = Convention::Z_WORD;

    pub const HEADER: usize = 160;

    pub const ALIGNMENT: usize = 8;

    pub const LEAST_WORDS: usize = 0;

    pub const FIRST_GENERAL: usize = 2;

    pub const FIRST_FLOATING: usize = 0;
    // The numbers after the last argument registers, r6 and f6; of the floating ones only those with even numbers are used.
    pub const PAST_GENERAL: usize = 7;

    pub const PAST_FLOATING: usize = 8;

    pub const START_ROOM: usize = 160;

    pub const FLOOR: usize = 0;

    pub const STACK_POINTER: usize = 15;

    pub const RETURN_REGISTER: usize = 14;

    pub fn call_rules() -> plan_places::CallRules
        ensures { result ≡ rules_of Convention.Z }
    {
        plan_places::CallRules::Z
    }

    pub fn frame_rules() -> FrameRules
        ensures { result ≡ rules Convention.Z }
    {
        let volatile = [
            RegisterSpan { first: 0, last: 5 },
            RegisterSpan {
                first: 14,
                last: 14,
            },
        ];
        let preserved = [
            RegisterSpan { first: 6, last: 13 },
            RegisterSpan { first: 6, last: 13 },
        ];
        let floating = [
            RegisterSpan { first: 0, last: 7 },
            RegisterSpan { first: 0, last: 7 },
        ];
        let kept = [
            RegisterSpan { first: 8, last: 15 },
            RegisterSpan { first: 8, last: 15 },
        ];
        FrameRules {
            word: Self::WORD,
            header: Self::HEADER,
            least: Self::WORD * Self::LEAST_WORDS,
            alignment: Self::ALIGNMENT,
            room: Self::START_ROOM,
            floor: Self::FLOOR,
            pointer: Self::STACK_POINTER,
            end: 16,
            limit: 18446744073709551615,
            gpr: BankRules {
                request: RegisterSpan { first: 6, last: 14 },
                last: 13,
                volatile,
                preserved,
            },
            fpr: BankRules {
                request: RegisterSpan { first: 8, last: 16 },
                last: 15,
                volatile: floating,
                preserved: kept,
            },
            linkage: Linkage::SaveArea(Self::RETURN_REGISTER),
        }
    }
}

// 32-bit AIX: document 003. PPC64's rules by words of 4 bytes, with r13 among the saved registers.
#[derive(Clone, Copy)]
pub struct Aix {}

impl Aix {
    pub const WORD: usize = Convention::AIX_WORD;

    pub const HEADER: usize = 24;

    pub const ALIGNMENT: usize = 16;

    pub const LEAST_WORDS: usize = Ppc64::LEAST_WORDS;

    pub const FIRST_GENERAL: usize = Ppc64::FIRST_GENERAL;

    pub const FIRST_FLOATING: usize = Ppc64::FIRST_FLOATING;

    pub const START_ROOM: usize = 64;

    pub const FLOOR: usize = 220;

    pub const FIRST_SAVED: usize = 13;

    pub const STACK_POINTER: usize = Ppc64::STACK_POINTER;

    pub const CR_SLOT: usize = 4;

    pub const LR_SLOT: usize = 8;
    // The highest address, which is also the largest number in a word.
    pub const LIMIT: u64 = 4294967295;

    pub fn call_rules() -> plan_places::CallRules
        ensures { result ≡ rules_of Convention.Aix }
    {
        earlier(Self::WORD)
    }

    pub fn frame_rules() -> FrameRules
        ensures { result ≡ rules Convention.Aix }
    {
        FrameRules {
            word: Self::WORD,
            header: Self::HEADER,
            least: Self::WORD * Self::LEAST_WORDS,
            alignment: Self::ALIGNMENT,
            room: Self::START_ROOM,
            floor: Self::FLOOR,
            pointer: Self::STACK_POINTER,
            end: 32,
            limit: Self::LIMIT,
            gpr: power_gpr(Self::FIRST_SAVED),
            fpr: power_fpr(),
            linkage: Linkage::LinkRegister(Self::CR_SLOT, Self::LR_SLOT),
        }
    }
}

// PPC64 by the later edition of its supplement: its own rule is the edition, all numbers are PPC64's.
#[derive(Clone, Copy)]
pub struct Ppc64b {}

impl Ppc64b {
    pub const WORD: usize = Convention::PPC64B_WORD;

    pub const HEADER: usize = Ppc64::HEADER;

    pub const ALIGNMENT: usize = Ppc64::ALIGNMENT;

    pub const LEAST_WORDS: usize = Ppc64::LEAST_WORDS;

    pub const FIRST_GENERAL: usize = Ppc64::FIRST_GENERAL;

    pub const FIRST_FLOATING: usize = Ppc64::FIRST_FLOATING;

    pub fn call_rules() -> plan_places::CallRules
        ensures { result ≡ rules_of Convention.Ppc64b }
    {
        plan_places::CallRules::Power(PowerRules {
            word: Self::WORD,
            edition: Edition::Later,
            ellipsis: false,
        })
    }

    // The edition says nothing of frames.
    pub fn frame_rules() -> FrameRules
        ensures { result ≡ rules Convention.Ppc64b }
    {
        Ppc64::frame_rules()
    }
}

// ---- what PPC64 and AIX share

// The rules of calls by words of so many bytes, in the earlier edition.
fn earlier(word: usize) -> plan_places::CallRules
    ensures { result ≡ power word Edition.Earlier }
{
    plan_places::CallRules::Power(PowerRules {
        word,
        edition: Edition::Earlier,
        ellipsis: false,
    })
}

// The general registers, where saves start at r(first).
fn power_gpr(first: usize) -> BankRules
    ensures { result ≡ power_gpr first }
{
    let volatile = [
        RegisterSpan { first: 0, last: 0 },
        RegisterSpan { first: 3, last: 12 },
    ];
    let preserved = [
        RegisterSpan { first: 2, last: 2 },
        RegisterSpan {
            first: 13,
            last: 31,
        },
    ];
    BankRules {
        request: RegisterSpan { first, last: 32 },
        last: 31,
        volatile,
        preserved,
    }
}

// The floating registers.
fn power_fpr() -> BankRules
    ensures { result ≡ power_fpr }
{
    let volatile = [
        RegisterSpan { first: 0, last: 13 },
        RegisterSpan { first: 0, last: 13 },
    ];
    let preserved = [
        RegisterSpan {
            first: 14,
            last: 31,
        },
        RegisterSpan {
            first: 14,
            last: 31,
        },
    ];
    BankRules {
        request: RegisterSpan {
            first: 14,
            last: 32,
        },
        last: 31,
        volatile,
        preserved,
    }
}

// ---- by the convention's name

// The rules of its calls.
pub fn call_rules_of(c: Convention) -> plan_places::CallRules
    ensures { result ≡ rules_of c }
{
    match c {
        Convention::Ppc64 => Ppc64::call_rules(),
        Convention::Z => Z::call_rules(),
        Convention::Aix => Aix::call_rules(),
        Convention::Ppc64b => Ppc64b::call_rules(),
    }
}

// Where its first argument starts.
#[tactic(auto, unfolding(plan_places::specs::Step::fresh_cursor))]
pub fn cursor_of(c: Convention) -> Cursor
    ensures { result ≡ fresh_cursor (rules_of c) }
{
    let (general, floating) = match c {
        Convention::Ppc64 => (Ppc64::FIRST_GENERAL, Ppc64::FIRST_FLOATING),
        Convention::Z => (Z::FIRST_GENERAL, Z::FIRST_FLOATING),
        Convention::Aix => (Aix::FIRST_GENERAL, Aix::FIRST_FLOATING),
        Convention::Ppc64b => (Ppc64b::FIRST_GENERAL, Ppc64b::FIRST_FLOATING),
    };
    Cursor {
        general,
        floating,
        stack: 0,
        copies: 0,
    }
}

// The bytes of its least parameter area.
pub fn least_area_of(c: Convention) -> usize
    ensures { result ≡ least_area c }
{
    match c {
        Convention::Ppc64 => Ppc64::WORD * Ppc64::LEAST_WORDS,
        Convention::Z => Z::WORD * Z::LEAST_WORDS,
        Convention::Aix => Aix::WORD * Aix::LEAST_WORDS,
        Convention::Ppc64b => Ppc64b::WORD * Ppc64b::LEAST_WORDS,
    }
}

// The rules of its frames.
pub fn frame_rules_of(c: Convention) -> FrameRules
    ensures { result ≡ rules c }
{
    match c {
        Convention::Ppc64 => Ppc64::frame_rules(),
        Convention::Z => Z::frame_rules(),
        Convention::Aix => Aix::frame_rules(),
        Convention::Ppc64b => Ppc64b::frame_rules(),
    }
}

// A fresh machine of the convention.
pub fn start(c: Convention, memory: &mut [u8], base: u64, registers: Registers) -> FrameOutcome
    ensures value { result ≡ start_outcome c base (length memory.old) registers }
    ensures memory_after { memory.new ≡ start_memory c base memory.old }
{
    frame_starting::start(frame_rules_of(c), c, memory, base, registers)
}
