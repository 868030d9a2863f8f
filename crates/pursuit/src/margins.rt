// A table of margins: one for each two fixes at which route and rival may be.
ghost use Rattle.std.specs.Prelude.{◌≡◌};
ghost use Rattle.pursuit.specs.Answers.{margin_at};

use chart::limits::{MAX_FIXES, MAX_SECONDS};

// How many fixes a table has room for: as many as a chart has at most.
pub(crate) const PURSUIT_FIXES: usize = MAX_FIXES;

// A place for each two fixes.
pub(crate) const MAX_MARGINS: usize = PURSUIT_FIXES * PURSUIT_FIXES;

// No list of legs that fit a table takes longer: it has fewer legs than there are fixes.
const LONGEST: u32 = MAX_SECONDS * PURSUIT_FIXES as u32;

// The margin of 0 seconds. It is more than any rival takes, so that a margin below zero is a number too.
pub(crate) const OFFSET: u32 = LONGEST + 1;

// The margin where the route has no way on. Less the offset and the time of one rival it is still more than any regret, so that a
// chain without a route is dropped.
pub(crate) const ENDLESS: u32 = OFFSET + 4 * LONGEST;

// The margin of the route at `a` and the rival at `b`, in the table of a chart with so many fixes; none past them.
#[tactic(auto, using(crate::proofs::ReadLegs::margin_there, crate::proofs::ReadLegs::margin_past_route, crate::proofs::ReadLegs::margin_past_rival))]
pub(crate) fn margin_between(margins: &[u32], fixes: u16, a: u16, b: u16) -> u32
    ensures { result ≡ margin_at fixes margins.now a b }
{
    if a >= fixes {
        return 0;
    }
    if b >= fixes {
        return 0;
    }
    margins
        .get(PURSUIT_FIXES * a as usize + b as usize)
        .copied()
        .unwrap_or(0)
}

// Sets the margin of the route at `a` and the rival at `b`.
pub(crate) fn set_margin(margins: &mut [u32], a: u16, b: u16, margin: u32) {
    let (a, b) = (a as usize, b as usize);
    if b >= PURSUIT_FIXES {
        return;
    }
    if let Some(place) = margins.get_mut(PURSUIT_FIXES * a + b) {
        *place = margin;
    }
}

// Takes the margins of a chart with so many fixes out of a table.
pub(crate) fn clear_margins(margins: &mut [u32], fixes: u16) {
    for row in margins.chunks_mut(PURSUIT_FIXES).take(fixes as usize) {
        row.fill(0);
    }
}
