// The pursuit bound of a chain: a regret that every route which begins with the chain has at least, on charts where every leg
// leads to a higher fix, for some heights.
#![tactic(auto)]

mod bounds;
mod filling;
mod heights;
mod legs;
mod margin_table;
mod margins;
mod pursuit;
mod reaching;

pub use bounds::{ChainState, bound};
pub use pursuit::Pursuit;
