// The floor of a chain: a regret that every route which begins with the chain has at least.
#![tactic(auto)]

mod floor_choice;
mod floors;
mod onward;
mod refusals;

pub use floors::{floor, floor_on};
pub use refusals::FloorRefusal;
