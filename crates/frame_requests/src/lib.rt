// What a request may ask, and how large its frame is, by the rules of any convention.
#![tactic(auto)]

ghost use Rattle.std.specs.Prelude.{◌≡◌, true};
ghost use Rattle.frame_rules.specs.Frames.{ok_leaf, ok_request, outgoing_length, below, full_size, frame_size, chain_width};
ghost use Rattle.frame_rules.specs.Helpers.{LawfulFrames};

use frame_rules::{Frame, FrameRules, Linkage};

// Is a request that asks for a leaf one that may?
#[tactic(auto, unfolding(frame_rules::specs::Frames::ok_leaf))]
fn leaf_ok(k: FrameRules, f: Frame) -> bool
    ensures { result ≡ ok_leaf k f }
{
    !f.leaf || frame_rules::has_condition(k.linkage) && f.locals == 0 && f.outgoing == 0
}

// The largest outgoing area that a request may ask for: `max_outgoing` of frame_rules/specs/Frames.antt.
pub const MAX_OUTGOING: usize = 32776;
// The largest locals.
const MAX_LOCALS: usize = 32000;

// Is a request in range?
#[tactic(auto, unfolding(frame_rules::specs::Frames::ok_request))]
pub fn request_ok(k: FrameRules, f: Frame) -> bool
    ensures { result ≡ ok_request k f }
{
    frame_rules::in_span(k.gpr.request, f.first_gpr)
        && frame_rules::in_span(k.fpr.request, f.first_fpr)
        && f.locals <= MAX_LOCALS
        && f.outgoing % 8 == 0
        && f.outgoing <= MAX_OUTGOING
        && leaf_ok(k, f)
        && (frame_rules::has_condition(k.linkage) || !f.saves_cr)
}

// The length of a frame's outgoing area.
pub fn outgoing_length(k: FrameRules, f: Frame) -> usize
    ensures { result ≡ outgoing_length k f }
{
    k.least.max(f.outgoing)
}

// The bytes that a frame saves below its caller's pointer.
pub fn below_size(k: FrameRules, f: Frame) -> usize
    requires lawful_frames { LawfulFrames k }
    requires f_value { ok_request k f ≡ true }
    ensures { result ≡ below k.linkage k f }
{
    let e = k.end;
    let w = k.word;
    let g = f.first_gpr;
    let m = f.first_fpr;
    match k.linkage {
        Linkage::LinkRegister(_, _) => 8 * (e - m) + w * (e - g),
        Linkage::SaveArea(_) => 8 * (e - m),
    }
}

// The size of a frame that is no leaf.
fn full_size(k: FrameRules, f: Frame) -> usize
    requires lawful_frames { LawfulFrames k }
    requires f_value { ok_request k f ≡ true }
    ensures { result ≡ full_size k f }
{
    let b = below_size(k, f);
    let p = outgoing_length(k, f);
    base_words::round_up(k.header + p + f.locals + b, k.alignment)
}

// How far an enter moves the stack pointer.
#[tactic(auto, unfolding(frame_rules::specs::Frames::frame_size))]
pub fn frame_size(k: FrameRules, f: Frame) -> usize
    requires lawful_frames { LawfulFrames k }
    requires f_value { ok_request k f ≡ true }
    ensures { result ≡ frame_size k f }
{
    if f.leaf { 0 } else { full_size(k, f) }
}

// The bytes of a frame's back chain.
#[tactic(auto, unfolding(frame_rules::specs::Frames::chain_width))]
pub fn chain_width(k: FrameRules, f: Frame) -> usize
    ensures { result ≡ chain_width k f }
{
    if f.leaf { 0 } else { k.word }
}
