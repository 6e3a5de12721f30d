// The two refusals of this crate: BadPage and OutOfMemory.
ghost use Rattle.std.specs.Prelude.{◌≡◌};
ghost use Rattle.pme_base.specs.declared.refusal.Cause.TheVariants as cause_of;
ghost use Rattle.pme_base.specs.Refusals as refusals;
ghost use Rattle.plain_pages.specs.Pages as pages;

use pme_base::{Cause, Detail, PagePart, Place, Refusal, plain_refusal, refusal_at};

/// The BadPage refusal for value `i` of a part of the page: the first one that is missing or out of range.
pub fn bad_page(place: &Place, part: PagePart, i: usize) -> Refusal
    ensures { result ≡ pages.bad_page place.now part i }
{
    refusal_at(Cause::BadPage, *place, 0, Detail::Part(part, i as u64))
}

/// The OutOfMemory refusal.
pub fn no_memory() -> Refusal
    ensures { result ≡ refusals.plain_refusal cause_of.OutOfMemory }
{
    plain_refusal(Cause::OutOfMemory)
}
