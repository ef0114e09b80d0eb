// Filling from a stored plan: the check of the stored bytes against the fresh signature first, then plain filling.
#![tactic(auto)]

ghost use Rattle.std.specs.Prelude.{◌≡◌};
ghost use Rattle.call_slots.specs.Buffers.{buffers};
ghost use Rattle.call_fill.specs.Fill.{fill_lengths};
ghost use Rattle.call_fill_stored.specs.FillStored.{stored_fill_answer, stored_fill_buffers};

use call_slots::CallError;

// Why filling by a stored plan is refused: the stored bytes are stale, with the place of the first difference; or as plain filling is.
#[derive(Clone, Copy, Debug, PartialEq, Eq)]
pub enum StoredError {
    Stale(usize),
    Call(CallError),
}

pub fn fill_stored(
    stored: &[u8],
    sig: &[u8],
    values: &[u8],
    image: &mut [u8],
    area: &mut [u8],
    copies: &mut [u8],
    base: u64,
    hidden: u64,
) -> Result<(), StoredError>
    ensures value { result ≡ stored_fill_answer stored.now sig.now (fill_lengths values.now image.old area.old copies.old) base hidden }
    ensures copies_after { buffers image.new area.new copies.new ≡ stored_fill_buffers stored.now sig.now values.now (fill_lengths values.now image.old area.old copies.old) base hidden (buffers image.old area.old copies.old) }
{
    match plan_stored::check_plan(stored, sig) {
        Ok(Some(place)) => Err(StoredError::Stale(place)),
        Err(fault) => Err(StoredError::Call(CallError::Unread(fault))),
        Ok(None) => match call_fill::fill(sig, values, image, area, copies, base, hidden) {
            Ok(()) => Ok(()),
            Err(e) => Err(StoredError::Call(e)),
        },
    }
}
