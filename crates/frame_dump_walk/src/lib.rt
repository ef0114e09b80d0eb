// The walk of a dump in code. It is made twice: once to find how many frames there are and that nothing refuses them, and only then to write their addresses.
#![tactic(auto)]

ghost use Rattle.std.specs.Prelude.{◌≡◌, ◌+◌, ◌-◌, ◌^◌, ◌≤◌, length};
ghost use Rattle.base_words.specs.Splice.{splice};
ghost use Rattle.frame_rules.specs.Helpers.{LawfulFrames};
ghost use Rattle.frame_dump.specs.Walk.{ok_address, walk_from, max_frames, walk_into, found_in, counted, frames_listed};

use frame_dump::WalkRefusal;
use frame_rules::FrameRules;

// The most frames that a walk finds.
const MAX_FRAMES: usize = 4096;

// Is the address a that of a frame whose header lies in the n bytes from `base` on, and not below `least`?
fn address_ok(k: FrameRules, base: u64, n: usize, least: u64, a: u64) -> bool
    requires { (LawfulFrames k) × (base + n ≤ 2 ^ 64 - 1) }
    ensures { result ≡ ok_address k base n least a }
{
    if a % (k.alignment as u64) != 0 {
        return false;
    }
    if a < base {
        return false;
    }
    let end = base + n as u64;
    if end < a {
        return false;
    }
    if end - a < k.header as u64 {
        return false;
    }
    least <= a
}

// How many frames a walk finds, or why it is refused.
fn count(memory: &[u8], k: FrameRules, base: u64, pointer: u64) -> Result<usize, WalkRefusal>
    requires { (LawfulFrames k) × (base + length memory.now ≤ 2 ^ 64 - 1) }
    ensures { result ≡ counted 0 (walk_from max_frames k base memory.now 0 pointer) }
{
    let n = memory.len();
    let mut a = pointer;
    let mut least: u64 = 0;
    let mut found: usize = 0;
    let mut left: usize = MAX_FRAMES;
    // It counts down, as the definition does; what it has left to find is what the proof needs.
    while 0 < left {
        left -= 1;
        if !address_ok(k, base, n, least, a) {
            return Err(WalkRefusal::BadAddress(a));
        }
        found += 1;
        let next = base_words::load(memory, (a - base) as usize, k.word);
        if next == 0 {
            return Ok(found);
        }
        least = a + 1;
        a = next;
    }
    Err(WalkRefusal::ChainTooLong)
}

// The addresses of the n frames that a walk finds, over the first numbers of `list`.
fn put(memory: &[u8], k: FrameRules, base: u64, pointer: u64, list: &mut [u64], n: usize)
    requires lawful_frames { (LawfulFrames k) × (base + length memory.now ≤ 2 ^ 64 - 1) × (n ≤ length list.old) }
    requires pointer_value { counted 0 (walk_from max_frames k base memory.now 0 pointer) ≡ Ok n }
    ensures { list.new ≡ splice list.old 0 (found_in (walk_from max_frames k base memory.now 0 pointer)) }
{
    let mut a = pointer;
    for i in 0..n {
        list[i] = a;
        a = base_words::load(memory, (a - base) as usize, k.word);
    }
}

// The walk of a dump from a stack pointer, into the lent list; nothing is written where it is refused.
pub fn walk(
    memory: &[u8],
    k: FrameRules,
    base: u64,
    pointer: u64,
    list: &mut [u64],
) -> Result<usize, WalkRefusal>
    requires { LawfulFrames k }
    ensures value { result ≡ counted 0 (walk_into k base memory.now pointer (length list.old)) }
    ensures list_after { list.new ≡ frames_listed (walk_into k base memory.now pointer (length list.old)) list.old }
{
    let length = memory.len();
    if 18446744073709551615 - (length as u64) < base {
        return Err(WalkRefusal::BadAddress(base));
    }
    let n = count(memory, k, base, pointer)?;
    if list.len() < n {
        return Err(WalkRefusal::ListTooShort);
    }
    put(memory, k, base, pointer, list, n);
    Ok(n)
}
