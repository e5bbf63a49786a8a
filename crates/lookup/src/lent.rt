// A lent slice after a refusal.
ghost use Rattle.lookup.specs.Listing.{Cleared};

use tlv::refusal::Refusal;

// A refusal fills the lent slice with 0.
pub fn refused<T>(lent: &mut [u8], r: Refusal) -> Result<T, Refusal>
    ensures { Cleared r lent.old lent.new result }
{
    lent.fill(0);
    Err(r)
}
