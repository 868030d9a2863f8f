// The legs that routes and rivals may have.
ghost use Rattle.std.specs.Prelude.{◌↔◌, IsTrue};
ghost use Rattle.pursuit.specs.Rivals.{ServesRoute, ServesRival};
ghost use Rattle.pursuit.specs.Answers.{query_on};
ghost use Rattle.pursuit.specs.internal.Margins.{IsServingLeg};

use chart::{Chart, Ends, Leg, Standing};
use search::Snapshot;

// Whether the leg may be on a route between the ends: no route enters its departure or leaves its destination.
fn serves_route(leg: &Leg, ends: Ends) -> bool
    ensures { IsTrue result ↔ ServesRoute ends.from ends.to leg.now }
{
    leg.standing == Standing::Open && leg.to != ends.from && leg.from != ends.to
}

// Whether the leg may be on a rival between the ends.
fn serves_rival(leg: &Leg, ends: Ends) -> bool
    ensures { IsTrue result ↔ ServesRival ends.from ends.to leg.now }
{
    leg.standing != Standing::Closed && leg.to != ends.from && leg.from != ends.to
}

// The leg of the number `k`, where it may be on a route between the ends.
pub(crate) fn route_leg(snapshot: &Snapshot, ends: Ends, k: u16) -> Option<Leg>
    ensures { IsServingLeg ServesRoute (query_on snapshot.now ends) k result }
{
    snapshot.leg(k).filter(|leg| serves_route(leg, ends))
}

// The leg of the number `k`, where it may be on a rival between the ends.
pub(crate) fn rival_leg(snapshot: &Snapshot, ends: Ends, k: u16) -> Option<Leg>
    ensures { IsServingLeg ServesRival (query_on snapshot.now ends) k result }
{
    snapshot.leg(k).filter(|leg| serves_rival(leg, ends))
}
