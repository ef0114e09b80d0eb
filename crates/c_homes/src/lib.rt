// The surface for C and Rust, which include/flakuzhen.h declares: the homes of register arguments, and views of arguments there. Each function
// calls one of the crates below and lays its answer out in 64-bit words.
#![tactic(auto)]

ghost use Rattle.std.specs.Prelude.{◌≡◌, length};
ghost use Rattle.call_home.specs.Home.{home_answer, home_area};
ghost use Rattle.c_call_answers.specs.Calls.{call_answer};
ghost use Rattle.c_homes.specs.Views.{part_answer};
ghost use Rattle.call_views.specs.View.{view_part};

use c_answers::Answer;

// `fz_part`: `length` bytes of a buffer from `start` on.
#[repr(C)]
#[derive(Clone, Copy)]
pub struct Part {
    pub answer: Answer,
    pub start: u64,
    pub length: u64,
}

#[unsafe(no_mangle)]
pub extern "C" fn fz_home(sig: &[u8], image: &[u8], area: &mut [u8]) -> Answer
    ensures value { result ≡ call_answer (home_answer sig.now image.now (length area.old)) }
    ensures area_after { area.new ≡ home_area sig.now (home_answer sig.now image.now (length area.old)) image.now area.old }
{
    let a = call_home::home(sig, image, area);
    c_call_answers::answer_of(a)
}

// Where the view lies in the area. The area is only measured.
#[unsafe(no_mangle)]
pub extern "C" fn fz_view(area: &[u8], sig: &[u8], index: u64) -> Part
    ensures { result ≡ part_answer (view_part sig.now (length area.now) index) }
{
    let p = call_views::view_part(sig, index as usize, area.len());
    let a = p.answer;
    let start = p.start as u64;
    let length = p.length as u64;
    Part {
        answer: c_call_answers::answer_of(a),
        start,
        length,
    }
}
