// What an enter saves and a leave gives back: the registers that a request names, with CR and LR where the convention keeps them, in the lent memory around the caller's stack pointer.
#![tactic(auto)]

ghost use Rattle.std.specs.Prelude.{◌≡◌, [], ◌∷◌, ◌+◌, ◌≤◌, length};
ghost use Rattle.base_words.specs.Basics.{flag};
ghost use Rattle.frame_saves.specs.Saves.{save_run, save_all};
ghost use Rattle.frame_rules.specs.Frames.{saves, gpr_at, gpr_save, fpr_save, link_at, merge_fields, restored_lr, restored_cr, restored};
ghost use Rattle.frame_rules.specs.Helpers.{SavesFit, LawfulFrames};

use frame_rules::{Frame, FrameRules, Linkage, Registers};

// Where the general registers of a frame are saved, with the caller's pointer at s.
pub fn gpr_at(k: FrameRules, f: Frame, s: usize, n: usize) -> usize
    requires { SavesFit k f s n }
    ensures { result ≡ gpr_at k.linkage k f s }
{
    let e = k.end;
    let w = k.word;
    let g = f.first_gpr;
    let m = f.first_fpr;
    match k.linkage {
        Linkage::LinkRegister(_, _) => s - 8 * (e - m) - w * (e - g),
        Linkage::SaveArea(_) => s + w * g,
    }
}

// The number x in the word of w bytes at `at`, or nothing.
fn save_word(memory: &mut [u8], at: usize, w: usize, on: bool, x: u64)
    requires { at + w ≤ length memory.old }
    ensures { memory.new ≡ save_run memory.old (x ∷ []) at w 0 (flag on) }
{
    if on {
        base_words::store(memory, at, w, x);
    }
}

fn save_general(memory: &mut [u8], k: FrameRules, f: Frame, r: Registers, s: usize)
    requires { SavesFit k f s (length memory.old) }
    ensures { memory.new ≡ save_all memory.old (gpr_save k.linkage k f s r.gpr ∷ []) }
{
    let n = memory.len();
    let at = gpr_at(k, f, s, n);
    let g = f.first_gpr;
    frame_saves::save_run(memory, &r.gpr, at, k.word, g, k.end - g);
}

fn save_floating(memory: &mut [u8], k: FrameRules, f: Frame, r: Registers, s: usize)
    requires { SavesFit k f s (length memory.old) }
    ensures { memory.new ≡ save_all memory.old (fpr_save k f s r.fpr ∷ []) }
{
    let m = f.first_fpr;
    let c = k.end - m;
    frame_saves::save_run(memory, &r.fpr, s - 8 * c, 8, m, c);
}

// All that an enter saves besides the back chain, with the caller's pointer at s.
pub fn save_registers(memory: &mut [u8], k: FrameRules, f: Frame, r: Registers, s: usize)
    requires { SavesFit k f s (length memory.old) }
    ensures { memory.new ≡ save_all memory.old (saves k f s r) }
{
    match k.linkage {
        Linkage::LinkRegister(cr_at, lr_at) => {
            save_general(memory, k, f, r, s);
            save_floating(memory, k, f, r, s);
            save_word(memory, s + cr_at, 4, f.saves_cr, r.cr as u64);
            save_word(memory, s + lr_at, k.word, !f.leaf, r.lr);
        }
        Linkage::SaveArea(_) => {
            save_floating(memory, k, f, r, s);
            save_general(memory, k, f, r, s);
        }
    }
}

// Where the caller's pointer must stand, with the frame's own pointer at o and the caller's at s.
pub fn link_at(k: FrameRules, o: usize, s: usize) -> usize
    requires { (LawfulFrames k) × (s ≤ 100000) }
    ensures { result ≡ link_at k.linkage k o s }
{
    match k.linkage {
        Linkage::LinkRegister(_, _) => o,
        Linkage::SaveArea(_) => s + k.word * k.pointer,
    }
}

// Condition fields 2 to 4 of new in old.
fn merge_fields(old: u32, new: u64) -> u32
    ensures { result ≡ merge_fields old new }
{
    let n = (new / 4096 % 4096) as u32;
    old / 16777216 * 16777216 + n * 4096 + old % 4096
}

fn restore_lr(memory: &[u8], k: FrameRules, f: Frame, s: usize, x: u64) -> u64
    requires { (LawfulFrames k) × (s + k.header ≤ length memory.now) }
    ensures { result ≡ restored_lr k.linkage k f s memory.now x }
{
    match k.linkage {
        Linkage::LinkRegister(_, lr_at) => {
            if f.leaf {
                x
            } else {
                base_words::load(memory, s + lr_at, k.word)
            }
        }
        Linkage::SaveArea(_) => x,
    }
}

fn restore_cr(memory: &[u8], k: FrameRules, f: Frame, s: usize, x: u32) -> u32
    requires { (LawfulFrames k) × (s + k.header ≤ length memory.now) }
    ensures { result ≡ restored_cr k.linkage f s memory.now x }
{
    match k.linkage {
        Linkage::LinkRegister(cr_at, _) => {
            if f.saves_cr {
                let v = base_words::load(memory, s + cr_at, 4);
                merge_fields(x, v)
            } else {
                x
            }
        }
        Linkage::SaveArea(_) => x,
    }
}

// The registers after a leave, with the caller's pointer p at the offset s.
pub fn restore(memory: &[u8], k: FrameRules, f: Frame, s: usize, p: u64, r: Registers) -> Registers
    requires { SavesFit k f s (length memory.now) }
    ensures { result ≡ restored k f s memory.now p r }
{
    let at = gpr_at(k, f, s, memory.len());
    let g = f.first_gpr;
    let m = f.first_fpr;
    let c = k.end - m;
    let mut gpr = frame_saves::load_run(memory, r.gpr, at, k.word, g, k.end - g);
    gpr[k.pointer] = p;
    let fpr = frame_saves::load_run(memory, r.fpr, s - 8 * c, 8, m, c);
    let lr = restore_lr(memory, k, f, s, r.lr);
    let cr = restore_cr(memory, k, f, s, r.cr);
    Registers { gpr, fpr, lr, cr }
}
