// The table of margins of a chart, filled and then checked: the margin that the next move keeps, as the table is.
ghost use Rattle.std.specs.Prelude.{IsTrue};

use super::heights::height_of;
use super::legs::{rival_leg, route_leg};
use super::margins::{ENDLESS, OFFSET, margin_between};
use chart::{Chart, Ends, Leg};
use search::Snapshot;

// The margins of a chart between two ends, with a height for each fix.
#[derive(Clone, Copy)]
pub(crate) struct MarginTable<'a> {
    pub(crate) snapshot: &'a Snapshot,
    pub(crate) ends: Ends,
    pub(crate) heights: &'a [u16],
    pub(crate) margins: &'a [u32],
}

impl<'a> MarginTable<'a> {
    ghost use Rattle.std.specs.Prelude.{◌≡◌};
    ghost use Rattle.chart.specs.Legs.{leg_at};
    ghost use Rattle.search.specs.Snapshots.{snapshot_legs};
    ghost use Rattle.pursuit.specs.Pursuits.{RouteKeeps, RouteMoves, RivalKeeps, RivalMoves};
    ghost use Rattle.pursuit.specs.Pursuits.{CountermoveKeeps, HasCountermove, BothMove};
    ghost use Rattle.pursuit.specs.internal.Margins.{table_query, table_margin, IsSupportedIn};
    ghost use Rattle.pursuit.specs.internal.Margins.{IsRowSupportedIn, IsEachSupportedIn};

    // The margin of the route at `a` and the rival at `b`.
    fn margin(&self, a: u16, b: u16) -> u32
        ensures { result ≡ table_margin self.now a b }
    {
        margin_between(self.margins, self.snapshot.n(), a, b)
    }

    // The margin that is kept where the route takes the leg `e`, and the rival stays at `b`; without end where no route has `e`.
    fn route_keeps(&self, b: u16, e: u16) -> u32
        ensures { RouteKeeps (table_query self.now) (table_margin self.now) b result e }
    {
        match route_leg(self.snapshot, self.ends, e) {
            None => ENDLESS,
            Some(leg) => match self.margin(leg.to, b) {
                0 => 0,
                next => next.saturating_add(leg.high),
            },
        }
    }

    // The margin that is kept by whichever leg the route takes out of `a`.
    fn route_moves(&self, a: u16, b: u16) -> u32
        ensures { RouteMoves (table_query self.now) (table_margin self.now) a b result }
    {
        let mut least = ENDLESS;
        for e in self.snapshot.legs_from(a) {
            least = least.min(self.route_keeps(b, e));
        }
        least
    }

    // The margin that is kept where the rival takes the leg `f`, and the route stays at `a`; none where no rival has `f`.
    fn rival_keeps(&self, a: u16, f: u16) -> u32
        ensures { RivalKeeps (table_query self.now) (table_margin self.now) a result f }
    {
        match rival_leg(self.snapshot, self.ends, f) {
            None => 0,
            Some(leg) => self.margin(a, leg.to).saturating_sub(leg.low),
        }
    }

    // The margin that is kept by the best leg of the rival out of `b`.
    fn rival_moves(&self, a: u16, b: u16) -> u32
        ensures { RivalMoves (table_query self.now) (table_margin self.now) a b result }
    {
        let mut most = 0;
        for f in self.snapshot.legs_from(b) {
            most = most.max(self.rival_keeps(a, f));
        }
        most
    }

    // The margin that is kept where both leave one fix, the route by the leg `e` and the rival by `f`; none where no rival has `f`.
    fn countermove_keeps(&self, e: u16, leg: &Leg, f: u16) -> u32
        requires { leg.now ≡ leg_at (snapshot_legs self.now.snapshot.now) e }
        ensures { CountermoveKeeps (table_query self.now) (table_margin self.now) e result f }
    {
        match rival_leg(self.snapshot, self.ends, f) {
            None => 0,
            Some(counter) => match self.margin(leg.to, counter.to) {
                0 => 0,
                next => {
                    let time = if f == e { counter.high } else { counter.low };
                    next.saturating_add(leg.high).saturating_sub(time)
                }
            },
        }
    }

    // The margin that is kept by the rival's best countermove where both leave `a` and the route takes the leg `e`; without end
    // where no route has `e`.
    fn best_countermove(&self, a: u16, e: u16) -> u32
        ensures { HasCountermove (table_query self.now) (table_margin self.now) a result e }
    {
        let Some(leg) = route_leg(self.snapshot, self.ends, e) else {
            return ENDLESS;
        };
        let mut most = 0;
        for f in self.snapshot.legs_from(a) {
            most = most.max(self.countermove_keeps(e, &leg, f));
        }
        most
    }

    // The margin that is kept where both leave `a`, by whichever leg the route goes.
    fn both_move(&self, a: u16) -> u32
        ensures { BothMove (table_query self.now) (table_margin self.now) a result }
    {
        let mut least = ENDLESS;
        for e in self.snapshot.legs_from(a) {
            least = least.min(self.best_countermove(a, e));
        }
        least
    }

    // The margin that the next move keeps, the route being at `a` and the rival at `b`.
    pub(crate) fn kept_margin(&self, a: u16, b: u16) -> u32
        ensures { IsSupportedIn self.now a b result }
    {
        if a == b {
            if a == self.ends.to {
                return OFFSET;
            }
            return self.both_move(a);
        }
        if height_of(self.heights, b) < height_of(self.heights, a) {
            // A route past the destination has no way on.
            if height_of(self.heights, self.ends.to) < height_of(self.heights, a) {
                return ENDLESS;
            }
            return self.rival_moves(a, b);
        }
        if a == self.ends.to {
            return 0;
        }
        self.route_moves(a, b)
    }

    // Whether the next move keeps the margin of `a` and `b`.
    fn is_supported(&self, a: u16, b: u16) -> bool
        ensures { IsTrue result → IsSupportedIn self.now a b (table_margin self.now a b) }
    {
        let margin = self.margin(a, b);
        margin == 0 || margin <= self.kept_margin(a, b)
    }

    // Whether it keeps each margin of `a`.
    fn is_row_supported(&self, a: u16) -> bool
        ensures { IsTrue result → IsRowSupportedIn self.now a }
    {
        for b in 0..self.snapshot.n() {
            if !self.is_supported(a, b) {
                return false;
            }
        }
        true
    }

    // Whether it keeps each margin.
    pub(crate) fn is_each_supported(&self) -> bool
        ensures { IsTrue result → IsEachSupportedIn self.now }
    {
        for a in 0..self.snapshot.n() {
            if !self.is_row_supported(a) {
                return false;
            }
        }
        true
    }
}
