// Plans: a draft is made on a chart and filed, and a filed plan is amended, asked and closed. A filed plan is a chart itself.
#![tactic(auto)]

mod amendment;
mod closed;
mod draft;
mod filed;
mod refusals;

pub use amendment::{AmendedLeg, Amendment, Change, LAST_REVISION, MAX_AMENDED};
pub use closed::{Closed, Status};
pub use draft::Draft;
pub use filed::Filed;
pub use refusals::{AmendRefusal, BestRefusal, EndsRefusal};
