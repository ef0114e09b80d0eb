// The home of one argument of a PowerPC call in the parameter area: what stands there once its registers are copied, and whether they can be.
#![tactic(auto)]

ghost use Rattle.std.specs.Prelude.{◌≡◌, ◌+◌, ◌≤◌, length};
ghost use Rattle.base_words.specs.Splice.{overlay, part};
ghost use Rattle.sig_types.specs.Sizes.{size_of};
ghost use Rattle.plan_places.specs.Step.{rules_of};
ghost use Rattle.call_slots.specs.Placements.{placement};
ghost use Rattle.call_home_slot.specs.Homes.{homeless, register_answer, homed_bytes};
ghost use Rattle.call_home_slot.specs.Helpers.{home_word, float_home, HomeSized, FprsFit, Registered};

use base_conventions::Convention;
use call_slots::CallError;
use plan_places::{CallRules, FPRS_AT, Span};
use sig_types::{Equivalent, ValueType};

// Whether a convention has no homes for its register arguments.
pub fn is_homeless(r: CallRules) -> bool
    ensures { result ≡ homeless r }
{
    matches!(r, CallRules::Z)
}

// Whether one argument's FPRs, if it has any, can be homed.
pub fn register_answer(image: &[u8], r: CallRules, t: ValueType, s: Span) -> Result<(), CallError>
    requires { FprsFit t s (length image.now) }
    ensures { result ≡ register_answer r t s image.now }
{
    let floating = s.floating;
    if 0 < floating.count {
        let x = base_words::load(image, FPRS_AT + 8 * (floating.first as usize), 8);
        return call_slots::float_answer(r, sig_types::equivalent_of(t), x);
    }
    Ok(())
}

// The 64 bits in memory of a float whose FPR has the bits x.
fn memory_word(e: Equivalent, x: u64) -> u64
    ensures { result ≡ home_word e x }
{
    match e {
        Equivalent::Nothing | Equivalent::Double => x,
        Equivalent::Single => match base_ieee::narrow(x) {
            Some(bits) => u64::from(bits),
            None => 0,
        },
    }
}

// A float in its memory form, at the head of its home of `room` bytes; its FPRs' n bytes start at `at` of the image.
fn home_float(place: &mut [u8], image: &[u8], e: Equivalent, at: usize, n: usize, room: usize)
    requires { (at + n ≤ length image.now) × (room ≤ length place.old) × HomeSized e n room }
    ensures { place.new ≡ overlay place.old (float_home room n e (part at n image.now)) }
{
    match e {
        Equivalent::Nothing => {
            let end = at + n;
            call_registers::put_padded(place, &image[at..end], room - n);
        }
        Equivalent::Single | Equivalent::Double => {
            base_words::put_number(place, room, memory_word(e, base_words::load(image, at, 8)));
        }
    }
}

// The register words of one argument at the head of its home.
pub fn put_home(place: &mut [u8], image: &[u8], c: Convention, t: ValueType, s: Span)
    requires { Registered (rules_of c) (s.home.start + length place.old) (length image.now) (placement t (size_of c t) s) }
    ensures { place.new ≡ overlay place.old (homed_bytes (rules_of c) (placement t (size_of c t) s) image.now) }
{
    let floating = s.floating;
    let general = s.general;
    let home = s.home;
    if 0 < floating.count {
        let at = FPRS_AT + 8 * (floating.first as usize);
        let held = 8 * (floating.count as usize);
        let room = home.length as usize;
        home_float(place, image, sig_types::equivalent_of(t), at, held, room);
        return;
    }
    let word = base_conventions::word_bytes(c);
    let first = general.first as usize;
    let count = general.count as usize;
    call_registers::take_registers(place, image, word, first, count, 0, word * count);
}
