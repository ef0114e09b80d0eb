// Big-endian numbers in lent bytes, and bytes put at the head of a lent part. A function that writes is lent the part that starts where it is to write,
// so that every caller's write is a splice (the law `lent-tail`). At the constant width 8 the compiler makes of `load` and `store` one load or store with
// its bytes swapped. Beside them stands what layers of both families ask of numbers. Nothing here knows of signatures or frames.
#![tactic(auto)]

ghost use Rattle.std.specs.Prelude.{◌≡◌, ◌+◌, ◌^◌, ◌≤◌, ◌<◌, length, replicate};
ghost use Rattle.base_words.specs.Basics.{round_up};
ghost use Rattle.base_words.specs.Splice.{overlay, splice, part};
ghost use Rattle.base_words.specs.Numbers.{bytes_of, value_of, zero_extended, sign_extended};

// The bytes bs at the head of s.
pub fn put(s: &mut [u8], bs: &[u8])
    requires { length bs.now ≤ length s.old }
    ensures { s.new ≡ overlay s.old bs.now }
{
    for (i, b) in bs.iter().enumerate() {
        s[i] = *b;
    }
}

// n zeros at the head of s.
pub fn put_zeros(s: &mut [u8], n: usize)
    requires { n ≤ length s.old }
    ensures { s.new ≡ overlay s.old (replicate n 0) }
{
    s[..n].fill(0);
}

// The n lowest bytes of x, the highest first, at the head of s.
pub fn put_number(s: &mut [u8], n: usize, x: u64)
    requires { n ≤ length s.old }
    ensures { s.new ≡ overlay s.old (bytes_of n x) }
{
    let mut rest = x;
    for i in (0..n).rev() {
        s[i] = (rest % 256) as u8;
        rest /= 256;
    }
}

// The n lowest bytes of x, the highest first, at the offset at of s.
pub fn store(s: &mut [u8], at: usize, n: usize, x: u64)
    requires { at + n ≤ length s.old }
    ensures { s.new ≡ splice s.old at (bytes_of n x) }
{
    put_number(&mut s[at..], n, x);
}

// The number that the n bytes at the offset at of s stand for.
pub fn load(s: &[u8], at: usize, n: usize) -> u64
    requires { (n ≤ 8) × (at + n ≤ length s.now) }
    ensures { result ≡ value_of (part at n s.now) }
{
    let mut value: u64 = 0;
    for b in &s[at..at + n] {
        value = value * 256 + u64::from(*b);
    }
    value
}

// The n lowest bytes of x as an unsigned number: what stands above them is shifted out.
pub fn zero_extend(x: u64, n: usize) -> u64
    requires { (1 ≤ n) × (n ≤ 8) }
    ensures { result ≡ zero_extended n x }
{
    let above = 64 - 8 * n;
    (x << above) >> above
}

// The n lowest bytes of x in two's complement, extended to 64 bits.
pub fn sign_extend(x: u64, n: usize) -> u64
    requires { (1 ≤ n) × (n ≤ 8) }
    ensures { result ≡ sign_extended n x }
{
    let low = zero_extend(x, n);
    let sign: u64 = 1 << (8 * n - 1);
    if low < sign {
        return low;
    }
    low + (u64::MAX - (sign - 1) - sign)
}

// x rounded up to a multiple of a.
pub fn round_up(x: usize, a: usize) -> usize
    requires { (0 < a) × (x + a ≤ 2 ^ 64) }
    ensures { result ≡ round_up x a }
{
    (x + (a - 1)) / a * a
}
