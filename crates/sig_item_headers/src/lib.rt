// The header of an item: its tag, its length and the end of its body; and a fault of the item itself.
#![tactic(auto)]

ghost use Rattle.std.specs.Prelude.{◌≡◌, ◌+◌, ◌*◌, ◌≤◌, length};
ghost use Rattle.sig_items.specs.Read.{body_at};
ghost use Rattle.sig_items.specs.Reading.{fault};

use sig_items::{Fault, Refusal};

// A big-endian number of two bytes.
fn two_bytes(high: u8, low: u8) -> usize
    ensures { result ≡ high * 256 + low }
{
    usize::from(high) * 256 + usize::from(low)
}

// The header of the item at `at`, which stands within `end` and may have the tags `low` to `high`: where its body ends.
pub fn read_body(s: &[u8], low: u8, high: u8, at: usize, end: usize) -> Result<usize, Refusal>
    requires { (at ≤ end) × (end ≤ length s.now) }
    ensures { result ≡ body_at s.now low high end at }
{
    if end - at < 3 {
        return Err(Refusal::Truncated);
    }
    let tag = s[at];
    if tag < low || high < tag {
        return Err(Refusal::UnexpectedTag);
    }
    let length = two_bytes(s[at + 1], s[at + 2]);
    if end - (at + 3) < length {
        return Err(Refusal::Truncated);
    }
    Ok(at + 3 + length)
}

// A fault of the item at `at` itself, whose own header is not counted.
pub fn fault_here(reason: Refusal, at: usize) -> Fault
    ensures { result ≡ fault reason at 0 }
{
    Fault {
        reason,
        place: at,
        passed: 0,
    }
}
