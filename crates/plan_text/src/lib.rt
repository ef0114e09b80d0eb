// Text in a lent buffer of bytes: a byte, some bytes, a number in base ten. A function that writes takes the place where it starts and
// returns the place where it ends; bytes past the end of the buffer are lost, so that a first run in a buffer of no use finds the length.
#![tactic(auto)]

ghost use Rattle.std.specs.Prelude.{◌∷◌, [], ◌++◌, ◌+◌, ◌^◌, ◌≤◌, ◌<◌, length};
ghost use Rattle.plan_text.specs.Decimals.{decimal};
ghost use Rattle.plan_text.specs.Writing.{Wrote};

pub fn put_byte(text: &mut [u8], at: usize, b: u8) -> usize
    requires { at < 2 ^ 40 }
    ensures { Wrote text.old text.new at result (b ∷ []) }
{
    if at < text.len() {
        text[at] = b;
        return at + 1;
    }
    at + 1
}

pub fn put_bytes(text: &mut [u8], at: usize, bs: &[u8]) -> usize
    requires { at + length bs.now < 2 ^ 40 }
    ensures { Wrote text.old text.new at result bs.now }
{
    let mut next = at;
    for b in bs {
        next = put_byte(text, next, *b);
    }
    next
}

// A number in base ten.
pub fn put_decimal(text: &mut [u8], at: usize, n: usize) -> usize
    requires { at < 2 ^ 32 }
    ensures { Wrote text.old text.new at result (decimal n) × (result ≤ at + 20) }
{
    if n < 10 {
        return put_byte(text, at, 48 + n as u8);
    }
    let next = put_decimal(text, at, n / 10);
    put_byte(text, next, 48 + (n % 10) as u8)
}

// Some bytes, and a number after them.
pub fn put_labelled(text: &mut [u8], at: usize, label: &[u8], n: usize) -> usize
    requires { at + length label.now < 2 ^ 32 }
    ensures { Wrote text.old text.new at result (label.now ++ decimal n) × (result ≤ at + (length label.now + 20)) }
{
    let next = put_bytes(text, at, label);
    put_decimal(text, next, n)
}
