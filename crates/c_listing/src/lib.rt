// The surface for C and Rust on listings: the printed plan. It is an object of its own: a listing plans by a table of spans, and beside it the
// planners of the other object would no longer have the step compiled in line.
#![tactic(auto)]

ghost use Rattle.std.specs.Prelude.{◌≡◌, length};
ghost use Rattle.base_words.specs.Splice.{overlay_whole};
ghost use Rattle.plan_listing.specs.Text.{listing_of};

// The length of the printed plan, which is put at the head of the text where there is room for all of it.
#[unsafe(no_mangle)]
pub extern "C" fn fz_listing(sig: &[u8], text: &mut [u8]) -> u64
    ensures { (result ≡ length (listing_of sig.now)) × (text.new ≡ overlay_whole text.old (listing_of sig.now)) }
{
    plan_listing::listing(sig, text) as u64
}
