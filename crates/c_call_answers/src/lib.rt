// An answer of a call on values as an exported function answers it: number, place and count, in 64-bit words.
#![tactic(auto)]

ghost use Rattle.std.specs.Prelude.{◌≡◌};
ghost use Rattle.c_call_answers.specs.Calls.{call_answer};

use c_answers::Answer;
use call_slots::CallError;

pub fn answer_of(a: Result<(), CallError>) -> Answer
    ensures { result ≡ call_answer a }
{
    match a {
        Ok(()) => Answer {
            number: 0,
            place: 0,
            items: 0,
        },
        Err(e) => match e {
            CallError::Unread(fault) => c_faults::fault_answer(fault),
            CallError::Refused(reason) => Answer {
                number: u64::from(reason),
                place: 0,
                items: 0,
            },
        },
    }
}
