// The best total of a route, for any kind of total, over a snapshot of any chart; and walks along lists of legs.
#![tactic(auto)]

mod best_total;
mod legs_from;
mod search_state;
mod snapshot;
mod walked;
mod walking;

pub use best_total::{best, best_on};
pub use legs_from::LegsFrom;
pub use snapshot::Snapshot;
pub use walked::Walked;
pub use walking::{is_flagged, step, walk};
