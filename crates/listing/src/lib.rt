// What calls on a chart are tested with: a listing of all lists of legs of a small chart and of all choices of low and high times says
// what is to be answered. It sees plain rows alone, and shares no code with the searches that are compared with it.
#![tactic(auto)]

mod chain;
mod choice;
mod filled_memory;
mod listing;
mod test_charts;

pub use chain::{Chain, all_chains};
pub use filled_memory::{FILLER, are_untouched};
pub use listing::{ListedRoute, Listing};
pub use test_charts::{DrawnNumbers, Turns, grid_rows};
