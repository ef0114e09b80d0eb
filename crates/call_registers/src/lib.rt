// Words in the general registers of an image, which has eight bytes for each: a word of at most eight bytes stands in the low ones. Where a
// word is a doubleword, registers are plain bytes, and are copied as such; else word goes by word.
#![tactic(auto)]

ghost use Rattle.std.specs.Prelude.{◌≡◌, ◌++◌, ◌+◌, ◌-◌, ◌*◌, ◌≤◌, ◌<◌, length, replicate};
ghost use Rattle.base_words.specs.Splice.{overlay, part};
ghost use Rattle.base_words.specs.Numbers.{bytes_of};
ghost use Rattle.call_registers.specs.Registers.{in_register, spread, gather};
ghost use Rattle.call_registers.specs.Helpers.{RegistersTake, RegistersHold};

// The bytes v at the head of s, and zeros after them.
pub fn put_padded(s: &mut [u8], v: &[u8], zeros: usize)
    requires { length v.now + zeros ≤ length s.old }
    ensures { s.new ≡ overlay s.old (v.now ++ replicate zeros 0) }
{
    base_words::put(s, v);
    let end = v.len();
    base_words::put_zeros(&mut s[end..], zeros);
}

// A word of at most eight bytes in the eight bytes of its register, zeros above it and after it.
fn put_register(s: &mut [u8], word: usize, v: &[u8])
    requires { (length v.now ≤ word) × (word ≤ 8) × (8 ≤ length s.old) }
    ensures { s.new ≡ overlay s.old (in_register word (v.now ++ replicate (word - length v.now) 0)) }
{
    let above = 8 - word;
    base_words::put_zeros(s, above);
    put_padded(&mut s[above..], v, word - v.len());
}

// The bytes v and zeros after them in registers, word by word.
fn put_each(s: &mut [u8], word: usize, count: usize, v: &[u8])
    requires { RegistersTake word count (length v.now) (length s.old) }
    ensures { s.new ≡ overlay s.old (spread word count (v.now ++ replicate (word * count - length v.now) 0)) }
{
    let n = v.len();
    let mut from: usize = 0;
    for i in 0..count {
        let at = 8 * i;
        let to = (from + word).min(n);
        put_register(&mut s[at..], word, &v[from..to]);
        from = to;
    }
}

// The bytes v and zeros after them, in the words of `count` registers.
pub fn put_registers(s: &mut [u8], word: usize, count: usize, v: &[u8])
    requires { RegistersTake word count (length v.now) (length s.old) }
    ensures { s.new ≡ overlay s.old (spread word count (v.now ++ replicate (word * count - length v.now) 0)) }
{
    if word == 8 {
        put_padded(s, v, 8 * count - v.len());
    } else {
        put_each(s, word, count, v);
    }
}

// The words of `count` registers: those of a number of `room` bytes, the highest first.
pub fn put_number_registers(s: &mut [u8], word: usize, count: usize, room: usize, x: u64)
    requires { (1 ≤ word) × (word ≤ 8) × (word * count ≤ room) × (room < word + 8) × (8 * count ≤ length s.old) }
    ensures { s.new ≡ overlay s.old (spread word count (bytes_of room x)) }
{
    let mut rest = room;
    for i in 0..count {
        let at = 8 * i;
        rest -= word;
        base_words::put_number(
            &mut s[at..],
            8,
            base_words::zero_extend(x >> (8 * rest), word),
        );
    }
}

// The n bytes of src from `at` on, at the head of out.
pub fn take_part(out: &mut [u8], src: &[u8], at: usize, n: usize)
    requires { (at + n ≤ length src.now) × (n ≤ length out.old) }
    ensures { out.new ≡ overlay out.old (part at n src.now) }
{
    let end = at + n;
    base_words::put(out, &src[at..end]);
}

// The n bytes from lo on of the words in registers, word by word, at the head of out.
fn take_each(
    out: &mut [u8],
    image: &[u8],
    word: usize,
    first: usize,
    count: usize,
    lo: usize,
    n: usize,
)
    requires { RegistersHold word first count lo n (length image.now) × (n ≤ length out.old) }
    ensures { out.new ≡ overlay out.old (part lo n (gather word count (part (8 * first) (8 * count) image.now))) }
{
    let above = 8 - word;
    let mut done: usize = 0;
    let mut register = first;
    let mut passed = lo;
    // A turn takes what is left of a word: no `for` has such steps.
    while done < n {
        let m = (word - passed).min(n - done);
        let from = 8 * register + above + passed;
        let to = from + m;
        base_words::put(&mut out[done..], &image[from..to]);
        done += m;
        passed = 0;
        register += 1;
    }
}

// Of the words in `count` registers of the image, from the register `first` on: n bytes from lo on, which is in the first word, at the head of out.
pub fn take_registers(
    out: &mut [u8],
    image: &[u8],
    word: usize,
    first: usize,
    count: usize,
    lo: usize,
    n: usize,
)
    requires { RegistersHold word first count lo n (length image.now) × (n ≤ length out.old) }
    ensures { out.new ≡ overlay out.old (part lo n (gather word count (part (8 * first) (8 * count) image.now))) }
{
    if word == 8 {
        take_part(out, image, 8 * first + lo, n);
    } else {
        take_each(out, image, word, first, count, lo, n);
    }
}
