// The words of a plan: an argument's entry, what a result's are, and the table that the caller lends.
#![tactic(auto)]

ghost use Rattle.std.specs.Prelude.{◌≡◌, ◌+◌, ◌*◌, ◌^◌, ◌≤◌, ◌<◌, length, take};
ghost use Rattle.base_words.specs.Splice.{overlay, splice, overlay_whole};
ghost use Rattle.plan_entries.specs.Words.{first_word, start_word, entry_words, entry_length};

use plan_places::{ByteRange, RegisterRange, Span};

// The words of an entry.
pub const ENTRY: usize = 13;

// Where a result is, 0 nowhere, 1 in registers, 2 in memory; and its registers, or the one with its address. The C interface has these numbers.
#[derive(Clone, Copy)]
pub struct ResultWords {
    pub kind: u64,
    pub gpr: u64,
    pub gprs: u64,
    pub fpr: u64,
    pub fprs: u64,
}

// The first register of a range; 0 where there is none.
fn first_word(r: RegisterRange) -> u16
    ensures { result ≡ first_word r }
{
    if r.count == 0 { 0 } else { u16::from(r.first) }
}

// The first byte of a range; 0 where there is none.
fn start_word(r: ByteRange) -> u16
    ensures { result ≡ start_word r }
{
    if r.length == 0 { 0 } else { r.start }
}

// The entry of one argument, at the head of `kept`: 16 bits are enough for each of its words.
fn put_entry(kept: &mut [u16], item: usize, size: usize, value: usize, s: Span)
    requires { (entry_length ≤ length kept.old) × (item < 2 ^ 16) × (size < 2 ^ 16) × (value < 2 ^ 16) }
    ensures { kept.new ≡ overlay kept.old (entry_words item size value s) }
{
    kept[0] = item as u16;
    kept[1] = size as u16;
    kept[2] = value as u16;
    kept[3] = first_word(s.general);
    kept[4] = u16::from(s.general.count);
    kept[5] = first_word(s.floating);
    kept[6] = u16::from(s.floating.count);
    kept[7] = start_word(s.home);
    kept[8] = s.home.length;
    kept[9] = start_word(s.memory);
    kept[10] = s.memory.length;
    kept[11] = start_word(s.copy);
    kept[12] = s.copy.length;
}

// The entry of argument i among those that are kept.
pub fn keep_entry(kept: &mut [u16], i: usize, item: usize, size: usize, value: usize, s: Span)
    requires { (entry_length * i + entry_length ≤ length kept.old) × (item < 2 ^ 16) × (size < 2 ^ 16) × (value < 2 ^ 16) }
    ensures { kept.new ≡ splice kept.old (entry_length * i) (entry_words item size value s) }
{
    let at = ENTRY * i;
    put_entry(&mut kept[at..], item, size, value, s);
}

// The first n words that are kept, at the head of the table; one that is too short for them is left as it was.
pub fn write_table(table: &mut [u64], kept: &[u16], n: usize)
    requires { n ≤ length kept.now }
    ensures { table.new ≡ overlay_whole table.old (take n kept.now) }
{
    if table.len() < n {
        return;
    }
    for (i, word) in kept[..n].iter().enumerate() {
        table[i] = u64::from(*word);
    }
}
