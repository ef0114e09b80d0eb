// Reads a whole signature: the convention, the result's type and the types of 0 to 128 arguments.
#![tactic(auto)]

ghost use Rattle.std.specs.Prelude.{◌≡◌, ◌+◌, ◌^◌, ◌≤◌, ◌<◌, length};
ghost use Rattle.sig_signatures.specs.Read.{arguments_in, signature_of};
ghost use Rattle.sig_signatures.specs.Answer.{refused_signature, signature_answer};
ghost use Rattle.sig_signatures.specs.Helpers.{with_arguments};

use base_conventions::Convention;
use sig_items::{Fault, Refusal};
use sig_signatures::{Argument, Head, MAX_ARGUMENTS, SignatureRead};

fn refuse(fault: Fault) -> SignatureRead
    ensures { result ≡ refused_signature fault }
{
    let arguments = sig_signatures::no_arguments();
    SignatureRead {
        outcome: Err(fault),
        convention: Convention::Ppc64,
        result: None,
        ellipsis: false,
        count: 0,
        arguments,
    }
}

// The arguments, in the last item's body, and the signature's end; the head came before this item.
fn read_arguments(s: &[u8], head: Head) -> SignatureRead
    requires { (head.at ≤ head.end) × (head.end ≤ length s.now) × (head.end ≤ 2 ^ 16) × (head.earlier ≤ 2 ^ 16) }
    ensures { result ≡ with_arguments head.convention head.result head.ellipsis head.earlier (length s.now) (arguments_in head.convention s.now head.at head.end) }
{
    let mut arguments = sig_signatures::no_arguments();
    let mut count: usize = 0;
    let mut next = head.at;
    let mut items: usize = 1;
    while next < head.end {
        if count == MAX_ARGUMENTS {
            return refuse(Fault {
                reason: Refusal::TooManyArguments,
                place: next,
                passed: head.earlier + items,
            });
        }
        match sig_nested_items::read_item(
            s,
            head.convention,
            next,
            head.end,
            sig_types::MAX_DEPTH,
        ) {
            Ok(item) => {
                arguments[count] = Argument { ty: item.ty };
                count += 1;
                next = item.next;
                items += item.items;
            }
            Err(fault) => {
                return refuse(sig_items::later_by(head.earlier + items, fault));
            }
        }
    }
    let counted = head.earlier + items;
    if next < s.len() {
        return refuse(Fault {
            reason: Refusal::TrailingBytes,
            place: next,
            passed: counted,
        });
    }
    SignatureRead {
        outcome: Ok(counted),
        convention: head.convention,
        result: head.result,
        ellipsis: head.ellipsis,
        count,
        arguments,
    }
}

// A signature: any bytes at all.
// Never inlined: its stack is given back before the next function's begins, so a call keeps to the stack that the header states.
#[inline(never)]
pub fn read_signature(s: &[u8]) -> SignatureRead
    ensures { result ≡ signature_answer (signature_of s.now) }
{
    match sig_head::read_head(s) {
        Err(fault) => refuse(fault),
        Ok(head) => read_arguments(s, head),
    }
}
