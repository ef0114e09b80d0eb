// The frames of a dump: memory bytes, their base and a stack pointer, with the back chain followed to its zero word. The definitions of a walk stand in specs/;
// `frame_dump_walk` has the code.
#![tactic(auto)]

ghost use Rattle.std.specs.Prelude.{◌≡◌};
ghost use Rattle.frame_dump.specs.Walk.{walk_refusal_number, refusal_place};

// Why a walk is refused.
#[derive(Clone, Copy, Debug, PartialEq, Eq)]
pub enum WalkRefusal {
    // This address is that of no frame after the one before, or the dump from this base on ends past the highest address.
    BadAddress(u64),
    // The back chain goes on after 4,096 frames.
    ChainTooLong,
    // The lent list has no room for all frames.
    ListTooShort,
}

// Document 02's number of a refusal.
impl From<WalkRefusal> for u64 {
    ghost from_gives = { λ r n. n ≡ walk_refusal_number r };

    fn from(r: WalkRefusal) -> u64 {
        match r {
            WalkRefusal::BadAddress(_) => 30,
            WalkRefusal::ChainTooLong => 31,
            WalkRefusal::ListTooShort => 32,
        }
    }
}

// Its place.
pub fn refusal_place(r: WalkRefusal) -> u64
    ensures { result ≡ refusal_place r }
{
    match r {
        WalkRefusal::BadAddress(a) => a,
        WalkRefusal::ChainTooLong | WalkRefusal::ListTooShort => 0,
    }
}
