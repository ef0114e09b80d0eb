// A single's 32 bits as the 64 bits of the double that it widens to, and back where there is such a single. The work is on
// the bits as integers and never on floats, so no NaN is quieted.
#![tactic(auto)]

ghost use Rattle.std.specs.Prelude.{◌≡◌, ◌/◌, ◌%◌, ◌^◌, ◌<◌};
ghost use Rattle.base_ieee.specs.Widening.{widen as widen_of};
ghost use Rattle.base_ieee.specs.Narrowing.{narrow as narrow_of, candidate as candidate_of};
ghost use Rattle.base_ieee.specs.Helpers.{magnitude as magnitude_of, candidate_magnitude};

// A single's sign bit.
const SINGLE_SIGN: u64 = 0x8000_0000;

// The lowest bit of a single's exponent field, and so the place of the hidden bit above its fraction.
const SINGLE_UNIT: u64 = 0x80_0000;

// A single's exponent field of ones, which infinities and NaNs have.
const SINGLE_INFINITY: u64 = 0x7f80_0000;

// The same three of a double.
const DOUBLE_SIGN: u64 = 0x8000_0000_0000_0000;

const DOUBLE_UNIT: u64 = 0x10_0000_0000_0000;

const DOUBLE_INFINITY: u64 = 0x7ff0_0000_0000_0000;

// A double's fraction is 29 bits longer, and a single's stands at its top.
const LONGER: u64 = 0x2000_0000;

// A double's bias is larger by this: 1023 less 127.
const REBIAS: u64 = 896;

// The single m without its sign as a double without its sign, class after class: zero, subnormal numbers, normal numbers,
// infinity and NaNs. A subnormal's leading one is shifted to the place of the hidden bit, and there it counts one in the
// exponent field: the field is one more than is multiplied by the unit here.
fn widen_magnitude(m: u64) -> u64
    requires { m < 2 ^ 31 }
    ensures { result ≡ magnitude_of (m / 2 ^ 23) (m % 2 ^ 23) }
{
    if m == 0 {
        0
    } else if m < SINGLE_UNIT {
        let shift = u64::from((m as u32).leading_zeros() - 8);
        (REBIAS - shift) * DOUBLE_UNIT + (m << shift) * LONGER
    } else if m < SINGLE_INFINITY {
        REBIAS * DOUBLE_UNIT + m * LONGER
    } else {
        DOUBLE_INFINITY + (m - SINGLE_INFINITY) * LONGER
    }
}

// The double that the single x widens to.
pub fn widen(x: u32) -> u64
    ensures { result ≡ widen_of x }
{
    let bits = u64::from(x);
    bits / SINGLE_SIGN * DOUBLE_SIGN + widen_magnitude(bits % SINGLE_SIGN)
}

// The only single without its sign that can widen to a double without its sign, given by the double's fields. Below the
// exponent field 874, that of the least subnormal, it is zero. Up to 896 it is subnormal: with the hidden bit put back,
// the 29 bits of the longer fraction and the shift, 897 less the exponent field, are taken off. From 1151 on only
// infinities and NaNs can be meant.
fn candidate_magnitude(exponent: u64, fraction: u64) -> u64
    requires { fraction < 2 ^ 52 }
    ensures { result ≡ candidate_magnitude exponent fraction }
{
    if exponent < 874 {
        0
    } else if exponent <= REBIAS {
        (DOUBLE_UNIT + fraction) >> (926 - exponent)
    } else if exponent < 1151 {
        (exponent - REBIAS) * SINGLE_UNIT + fraction / LONGER
    } else {
        SINGLE_INFINITY + fraction / LONGER
    }
}

// The only single that can widen to d.
fn candidate(d: u64) -> u32
    ensures { result ≡ candidate_of d }
{
    let sign = d / DOUBLE_SIGN;
    let exponent = d / DOUBLE_UNIT % 2048;
    let fraction = d % DOUBLE_UNIT;
    (sign * SINGLE_SIGN + candidate_magnitude(exponent, fraction)) as u32
}

// The single that widens to d, if there is one: the only candidate.
pub fn narrow(d: u64) -> Option<u32>
    ensures { result ≡ narrow_of d }
{
    let x = candidate(d);
    (widen(x) == d).then_some(x)
}
