// A reading's fault as an exported function answers it: number, place and the count of headers that had passed, in 64-bit words.
#![tactic(auto)]

ghost use Rattle.std.specs.Prelude.{◌≡◌};
ghost use Rattle.c_faults.specs.Faults.{fault_answer};

use c_answers::Answer;
use sig_items::Fault;

// It is no `From`: both types are other crates' own.
pub fn fault_answer(f: Fault) -> Answer
    ensures { result ≡ fault_answer f }
{
    Answer {
        number: u64::from(f.reason),
        place: f.place as u64,
        items: f.passed as u64,
    }
}
