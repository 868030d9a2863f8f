// The regret of a route: the most by which its time can be above that of the route that would have been best.
#![tactic(auto)]

mod flagged;
mod refusals;
mod regrets;

pub use flagged::{Flagged, least_time};
pub use refusals::RegretRefusal;
pub use regrets::{regret, regret_on};
