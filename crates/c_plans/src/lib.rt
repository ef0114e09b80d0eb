// The surface for C and Rust on plans: the sizes of a call and its whole plan. It is an object of its own beside those on signatures and listings, so that each
// has the planner's code where it is used.
#![tactic(auto)]

ghost use Rattle.std.specs.Prelude.{◌≡◌};
ghost use Rattle.base_words.specs.Splice.{overlay_whole};
ghost use Rattle.plan_plans.specs.Call.{call_of};
ghost use Rattle.plan_words.specs.Entries.{entries_of};
ghost use Rattle.c_plans.specs.Plans.{sizes_answer, planned_answer};

use c_answers::Answer;

// `fz_sizes`: the bytes that the values, the parameter area and the copies of a call take.
#[repr(C)]
#[derive(Clone, Copy)]
pub struct Sizes {
    pub answer: Answer,
    pub values: u64,
    pub area: u64,
    pub copies: u64,
}

// `fz_planned`: the plan without its arguments' places. `result` is 0 for none, 1 in registers, 2 in memory, and after it come the
// result's registers, or the one with its address. `ellipsis` is 1 for a signature with one, else 0.
#[repr(C)]
#[derive(Clone, Copy)]
pub struct PlanAnswer {
    pub answer: Answer,
    pub convention: u64,
    pub ellipsis: u64,
    pub arguments: u64,
    pub values: u64,
    pub area: u64,
    pub copies: u64,
    pub result: u64,
    pub result_gpr: u64,
    pub result_gprs: u64,
    pub result_fpr: u64,
    pub result_fprs: u64,
}

#[unsafe(no_mangle)]
pub extern "C" fn fz_measure(sig: &[u8]) -> Sizes
    ensures { result ≡ sizes_answer (call_of sig.now) }
{
    let m = plan_measuring::measure(sig);
    let values = m.values as u64;
    let area = m.area as u64;
    let copies = m.copies as u64;
    match m.outcome {
        Ok(_) => Sizes {
            answer: Answer {
                number: 0,
                place: 0,
                items: 0,
            },
            values,
            area,
            copies,
        },
        Err(fault) => Sizes {
            answer: c_faults::fault_answer(fault),
            values: 0,
            area: 0,
            copies: 0,
        },
    }
}

// The plan, with an entry for each argument at the head of the table where there is room for all of them.
#[unsafe(no_mangle)]
pub extern "C" fn fz_plan(sig: &[u8], places: &mut [u64]) -> PlanAnswer
    ensures { (result ≡ planned_answer (call_of sig.now)) × (places.new ≡ overlay_whole places.old (entries_of (call_of sig.now))) }
{
    let p = plan_words::plan_words(sig, places);
    match p.outcome {
        Err(fault) => PlanAnswer {
            answer: c_faults::fault_answer(fault),
            convention: 0,
            ellipsis: 0,
            arguments: 0,
            values: 0,
            area: 0,
            copies: 0,
            result: 0,
            result_gpr: 0,
            result_gprs: 0,
            result_fpr: 0,
            result_fprs: 0,
        },
        Ok(_) => {
            let r = p.result;
            PlanAnswer {
                answer: Answer {
                    number: 0,
                    place: 0,
                    items: 0,
                },
                convention: u64::from(p.convention),
                ellipsis: u64::from(p.ellipsis),
                arguments: p.count as u64,
                values: p.values as u64,
                area: p.area as u64,
                copies: p.copies as u64,
                result: r.kind,
                result_gpr: r.gpr,
                result_gprs: r.gprs,
                result_fpr: r.fpr,
                result_fprs: r.fprs,
            }
        }
    }
}
