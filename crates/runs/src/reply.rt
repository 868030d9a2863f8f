// What a filed plan replies in a run.
use chart::QuickestTotal;
use floor::FloorRefusal;
use least::{FoundRoute, RouteRefusal};
use plan::{AmendRefusal, BestRefusal, Status};
use regret::RegretRefusal;

/// The reply to one call: what the plan's own method answers, or why it is refused.
#[derive(Clone, Copy, Debug, PartialEq, Eq)]
pub enum Reply {
    /// The new revision.
    Amend(Result<u16, AmendRefusal>),
    /// How many legs the route of least regret has, and its regret in seconds. Its legs stand in the call's part of the memory.
    Route(Result<FoundRoute, RouteRefusal>),
    /// The regret of the list, in seconds.
    Regret(Result<u32, RegretRefusal>),
    /// The floor of the chain, in seconds.
    Floor(Result<u32, FloorRefusal>),
    /// The seconds and the legs of the quickest total.
    Quickest(Result<QuickestTotal, BestRefusal>),
    /// The best level, in hundreds of feet.
    Level(Result<u16, BestRefusal>),
    /// The status, which is never refused.
    Status(Status),
}
