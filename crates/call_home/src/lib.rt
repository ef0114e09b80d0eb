// Home: the arguments of a PowerPC call that came in registers, copied into the parameter area.
#![tactic(auto)]

ghost use Rattle.std.specs.Prelude.{◌≡◌, ◌≤◌, length};
ghost use Rattle.call_slots.specs.Refusals.{first_of};
ghost use Rattle.call_slots.specs.Arguments.{placements_in, rules_in};
ghost use Rattle.call_home.specs.Home.{registers_answer, home_tests, home_answer, homed, home_area};
ghost use Rattle.call_home.specs.Helpers.{AllRegistered};

use call_slots::{CallError, CallRefusal};
use plan_places::{CallRules, IMAGE_BYTES};
use plan_plans::Plan;
use sig_signatures::SignatureRead;

// The refusal of the first argument, left to right, that can't be homed.
fn first_unwidened(image: &[u8], g: SignatureRead, p: Plan) -> Result<(), CallError>
    requires { AllRegistered g p (length image.now) }
    ensures { result ≡ registers_answer (rules_in g) (placements_in g p) image.now }
{
    let rules = both_abi::call_rules_of(g.convention);
    for i in 0..g.count {
        call_home_slot::register_answer(image, rules, g.arguments[i].ty, p.spans[i])?;
    }
    Ok(())
}

// All arguments, each in the part of the area that starts at its home.
fn put_homes(area: &mut [u8], image: &[u8], g: SignatureRead, p: Plan)
    requires { AllRegistered g p (length image.now) × (p.area ≤ length area.old) }
    ensures { area.new ≡ homed (rules_in g) (placements_in g p) image.now area.old }
{
    for i in 0..g.count {
        let t = g.arguments[i].ty;
        let s = p.spans[i];
        let start = s.home.start as usize;
        call_home_slot::put_home(&mut area[start..], image, g.convention, t, s);
    }
}

// Whether there are homes, and the image and the area have the lengths that a plan asks for.
fn home_tested(r: CallRules, image: usize, lent: usize, area: usize) -> Result<(), CallError>
    ensures { result ≡ first_of (home_tests r image lent area) }
{
    if call_home_slot::is_homeless(r) {
        return Err(CallError::Refused(CallRefusal::NoView));
    }
    if image != IMAGE_BYTES {
        return Err(CallError::Refused(CallRefusal::ImageSize));
    }
    if lent < area {
        return Err(CallError::Refused(CallRefusal::AreaTooShort));
    }
    Ok(())
}

// Copies the arguments of a PowerPC call that are in registers into their homes in the parameter area. Takes any bytes as signature, and buffers of any
// lengths; every FPR is tested before anything is written.
pub fn home(sig: &[u8], image: &[u8], area: &mut [u8]) -> Result<(), CallError>
    ensures value { result ≡ home_answer sig.now image.now (length area.old) }
    ensures area_after { area.new ≡ home_area sig.now result image.now area.old }
{
    let g = sig_whole::read_signature(sig);
    let p = plan_planning::plan_signature(g);
    plan_planning::call_outcome(sig, g)?;
    let rules = both_abi::call_rules_of(g.convention);
    home_tested(rules, image.len(), area.len(), p.area)?;
    let floats = first_unwidened(image, g, p);
    floats?;
    put_homes(area, image, g, p);
    Ok(())
}
