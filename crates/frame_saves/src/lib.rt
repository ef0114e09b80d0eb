// Runs of registers saved to lent bytes and restored from them: big-endian words, one after the other.
#![tactic(auto)]

ghost use Rattle.std.specs.Prelude.{◌≡◌, ◌+◌, ◌*◌, ◌≤◌, length};
ghost use Rattle.frame_saves.specs.Saves.{save_run, load_run};

// The c registers of xs from number n on, saved in words of w bytes from the offset at on.
pub fn save_run(memory: &mut [u8], xs: &[u64; 32], at: usize, w: usize, n: usize, c: usize)
    requires { (at + w * c ≤ length memory.old) × (n + c ≤ 32) }
    ensures { memory.new ≡ save_run memory.old xs.now at w n c }
{
    let mut a = at;
    for i in n..n + c {
        base_words::store(memory, a, w, xs[i]);
        a += w;
    }
}

// The registers xs with the c from number n on restored from words of w bytes from the offset at on.
pub fn load_run(memory: &[u8], xs: [u64; 32], at: usize, w: usize, n: usize, c: usize) -> [u64; 32]
    requires { (at + w * c ≤ length memory.now) × (n + c ≤ 32) × (w ≤ 8) }
    ensures { result ≡ load_run xs memory.now at w n c }
{
    let mut ys = xs;
    let mut a = at;
    for i in n..n + c {
        ys[i] = base_words::load(memory, a, w);
        a += w;
    }
    ys
}
