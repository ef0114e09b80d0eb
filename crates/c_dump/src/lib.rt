// The walk of a dump for C and Rust: the frame addresses in walking order, in the lent list, and how many they are. A refused walk leaves the list as it was.
#![tactic(auto)]

ghost use Rattle.std.specs.Prelude.{◌≡◌, length};
ghost use Rattle.base_conventions.specs.declared.Convention.TheVariants as convention;
ghost use Rattle.frame_rules.specs.Rules.{rules};
ghost use Rattle.frame_dump.specs.Walk.{walk_into, counted, frames_listed};
ghost use Rattle.c_dump.specs.Dump.{walked_answer};

use base_conventions::Convention;
use c_answers::Answer;
use frame_dump::WalkRefusal;

// `fz_walked` of include/flakuzhen.h.
#[repr(C)]
#[derive(Clone, Copy)]
pub struct WalkedDump {
    pub answer: Answer,
    pub count: u64,
}

#[tactic(auto, unfolding(crate::specs::Dump::walked_answer))]
fn walked_of(found: Result<usize, WalkRefusal>) -> WalkedDump
    ensures { result ≡ walked_answer found }
{
    match found {
        Ok(n) => WalkedDump {
            answer: Answer {
                number: 0,
                place: 0,
                items: 0,
            },
            count: n as u64,
        },
        Err(refusal) => WalkedDump {
            answer: Answer {
                number: u64::from(refusal),
                place: frame_dump::refusal_place(refusal),
                items: 0,
            },
            count: 0,
        },
    }
}

// The walk by a convention's rules.
fn walk_by(c: Convention, memory: &[u8], base: u64, pointer: u64, list: &mut [u64]) -> WalkedDump
    ensures value { result ≡ walked_answer (counted 0 (walk_into (rules c) base memory.now pointer (length list.old))) }
    ensures list_after { list.new ≡ frames_listed (walk_into (rules c) base memory.now pointer (length list.old)) list.old }
{
    let k = both_abi::frame_rules_of(c);
    walked_of(frame_dump_walk::walk(memory, k, base, pointer, list))
}

#[unsafe(no_mangle)]
pub extern "C" fn fz_walk_dump_ppc64(
    memory: &[u8],
    base: u64,
    pointer: u64,
    list: &mut [u64],
) -> WalkedDump
    ensures value { result ≡ walked_answer (counted 0 (walk_into (rules convention.Ppc64) base memory.now pointer (length list.old))) }
    ensures list_after { list.new ≡ frames_listed (walk_into (rules convention.Ppc64) base memory.now pointer (length list.old)) list.old }
{
    walk_by(Convention::Ppc64, memory, base, pointer, list)
}

#[unsafe(no_mangle)]
pub extern "C" fn fz_walk_dump_z(
    memory: &[u8],
    base: u64,
    pointer: u64,
    list: &mut [u64],
) -> WalkedDump
    ensures value { result ≡ walked_answer (counted 0 (walk_into (rules convention.Z) base memory.now pointer (length list.old))) }
    ensures list_after { list.new ≡ frames_listed (walk_into (rules convention.Z) base memory.now pointer (length list.old)) list.old }
{
    walk_by(Convention::Z, memory, base, pointer, list)
}

#[unsafe(no_mangle)]
pub extern "C" fn fz_walk_dump_aix(
    memory: &[u8],
    base: u64,
    pointer: u64,
    list: &mut [u64],
) -> WalkedDump
    ensures value { result ≡ walked_answer (counted 0 (walk_into (rules convention.Aix) base memory.now pointer (length list.old))) }
    ensures list_after { list.new ≡ frames_listed (walk_into (rules convention.Aix) base memory.now pointer (length list.old)) list.old }
{
    walk_by(Convention::Aix, memory, base, pointer, list)
}
