// The route of least regret between two fixes of a chart, and its regret.
#![tactic(auto)]

mod branch_and_bound;
mod few_chains;
mod refusals;
mod routes;

pub use refusals::RouteRefusal;
pub use routes::{FoundRoute, least_regret};
