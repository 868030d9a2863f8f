// What the calls of plans are tested with. A ledger that is kept apart from the plan that it is of says what is expected of each call of
// a run, by a listing of the ledger's legs.
#![tactic(auto)]

mod batch;
mod ledger;

pub use batch::Batch;
pub use ledger::{Ledger, has_legs};
