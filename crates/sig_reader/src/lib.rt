// A reader that keeps a signature's bytes and its place in them together, to step through items one by one; and above it
// functions over plain bytes, for every other caller, which step with readers: an argument by its number, and 29 at its place. Functions over bytes
// and numbers do the work: the reader's own only take it apart and put it together.
#![tactic(auto)]

ghost use Rattle.std.specs.Prelude.{◌≡◌, ◌^◌, ◌≤◌, length};
ghost use Rattle.sig_items.specs.Answer.{item_answer};
ghost use Rattle.sig_signatures.specs.Limits.{max_length};
ghost use Rattle.sig_signatures.specs.Read.{arguments_in, signature_of};
ghost use Rattle.sig_stepping.specs.Step.{left_at, header_in, type_in};
ghost use Rattle.sig_reader.specs.Reader.{reader_started, skipped, reader_entered, advanced};
ghost use Rattle.sig_reader.specs.Argument.{argument_of, item_in, unclear_fault};
ghost use Rattle.sig_reader.specs.Helpers.{argument_with, noted_as};

use base_conventions::Convention;
use sig_items::{Fault, Item, Refusal};
use sig_signatures::{Head, MAX_ARGUMENTS};
use sig_stepping::Header;
use sig_types::ValueType;

// The bytes, the place of the next item, and the end of the part that is stepped through. Any numbers are allowed.
#[derive(Clone, Copy)]
pub struct Reader<'a> {
    pub signature: &'a [u8],
    pub at: usize,
    pub end: usize,
}

// An argument's type and the place of its item.
#[derive(Clone, Copy, Debug, PartialEq, Eq)]
pub struct ArgumentItem {
    pub ty: ValueType,
    pub place: usize,
}

impl<'a> Reader<'a> {
    // At the first item of the whole signature.
    pub fn new(signature: &'a [u8]) -> Reader<'a>
        ensures { result ≡ reader_started signature.entry }
    {
        Reader {
            signature,
            at: 0,
            end: signature.len(),
        }
    }

    // How many bytes are left.
    pub fn left(self) -> usize
        ensures { result ≡ left_at self.entry.signature.now self.entry.at self.entry.end }
    {
        sig_stepping::left_at(self.signature, self.at, self.end)
    }

    // The item's header.
    pub fn header(self) -> Result<Header, Refusal>
        ensures { result ≡ header_in self.entry.signature.now self.entry.at self.entry.end }
    {
        sig_stepping::header_in(self.signature, self.at, self.end)
    }

    // Past the item, or where it is if the header is refused.
    pub fn skip(self) -> Reader<'a>
        ensures { result ≡ skipped self.entry }
    {
        Reader {
            at: sig_stepping::body_end(self.signature, self.at, self.end),
            ..self
        }
    }

    // Into the item's body; nothing is left there if the header is refused.
    pub fn enter(self) -> Reader<'a>
        ensures { result ≡ reader_entered self.entry }
    {
        Reader {
            at: sig_stepping::body_start(self.signature, self.at, self.end),
            end: sig_stepping::body_end(self.signature, self.at, self.end),
            ..self
        }
    }

    // The item as a type item, with its type.
    pub fn type_item(self, c: Convention) -> Result<Item, Fault>
        ensures { result ≡ item_answer c (type_in c self.entry.signature.now self.entry.at self.entry.end) }
    {
        sig_stepping::type_in(self.signature, self.at, self.end, c)
    }

    // The same, and the reader moves past it; after a refusal it stays where it is.
    pub fn next_type<'s>(&'s mut self, c: Convention) -> Result<Item, Fault>
        ensures { (result ≡ item_answer c (type_in c self.old.signature.now self.old.at self.old.end))
            × (self.new ≡ advanced c self.old) }
    {
        let at = self.at;
        let item = sig_stepping::type_in(self.signature, at, self.end, c);
        self.at = sig_stepping::place_after(item, at);
        item
    }
}

// The type item at `at`, by a reader of the part up to `end`.
fn type_of_part(s: &[u8], at: usize, end: usize, c: Convention) -> Result<Item, Fault>
    ensures { result ≡ item_answer c (type_in c s.now at end) }
{
    Reader {
        signature: s,
        at,
        end,
    }
    .type_item(c)
}

// What is known of argument number `index` after argument number `count`, of this type and at this place.
fn noted(
    found: Option<ArgumentItem>,
    index: usize,
    count: usize,
    ty: ValueType,
    place: usize,
) -> Option<ArgumentItem>
    ensures { result ≡ noted_as found index count ty place }
{
    if index == count {
        return Some(ArgumentItem { ty, place });
    }
    found
}

// The same from the arguments on, whose head was read. All are read: a refused signature has no arguments; and none may have that number.
fn argument_from(s: &[u8], head: Head, index: usize) -> Result<Option<ArgumentItem>, Fault>
    requires { (head.at ≤ head.end) × (head.end ≤ length s.now) × (length s.now ≤ max_length) × (head.earlier ≤ 2 ^ 16) }
    ensures { result ≡ argument_with head.convention head.at head.earlier (length s.now) index (arguments_in head.convention s.now head.at head.end) }
{
    let mut found = None;
    let mut count: usize = 0;
    let mut next = head.at;
    let mut items: usize = 1;
    while next < head.end {
        if count == MAX_ARGUMENTS {
            return Err(Fault {
                reason: Refusal::TooManyArguments,
                place: next,
                passed: head.earlier + items,
            });
        }
        match type_of_part(s, next, head.end, head.convention) {
            Ok(item) => {
                found = noted(found, index, count, item.ty, next);
                count += 1;
                next = item.next;
                items += item.items;
            }
            Err(fault) => {
                return Err(sig_items::later_by(head.earlier + items, fault));
            }
        }
    }
    let counted = head.earlier + items;
    if next < s.len() {
        return Err(Fault {
            reason: Refusal::TrailingBytes,
            place: next,
            passed: counted,
        });
    }
    Ok(found)
}

// Argument number `index` of any bytes, counted from 0: its type, and where its item stands; or none has that number.
pub fn argument_at(s: &[u8], index: usize) -> Result<Option<ArgumentItem>, Fault>
    ensures { result ≡ argument_of index (signature_of s.now) }
{
    let head = sig_head::read_head(s)?;
    argument_from(s, head, index)
}

// The place of an argument's item.
fn item_in(a: Result<Option<ArgumentItem>, Fault>) -> usize
    ensures { result ≡ item_in a }
{
    match a {
        Ok(Some(argument)) => argument.place,
        Ok(None) | Err(_) => 0,
    }
}

// 29 of argument number `index`, counted from 0. The signature is read again to find its place: nothing else asks for that.
pub fn unclear_fault(s: &[u8], index: usize) -> Fault
    ensures { result ≡ unclear_fault index (signature_of s.now) }
{
    let place = item_in(argument_at(s, index));
    Fault {
        reason: Refusal::UnclearPlace,
        place,
        passed: 0,
    }
}
