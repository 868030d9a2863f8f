// How a table of margins is filled in: first the pairs of fixes that a pursuit comes to are flagged, since the margins of no others
// are asked for, then each flagged pair gets its margin. Nothing is promised of what is filled in, since it is checked.
use super::heights::height_of;
use super::legs::{rival_leg, route_leg};
use super::margin_table::MarginTable;
use super::margins::{margin_between, set_margin};
use chart::{Chart, Ends};
use search::Snapshot;

// The margin that flags a pair until its own margin is filled in.
const REACHED: u32 = 1;

// What a table of margins is filled in by: the chart, the ends, a height for each fix, and the fixes from the highest down.
#[derive(Clone, Copy)]
pub(crate) struct Filling<'a> {
    pub(crate) snapshot: &'a Snapshot,
    pub(crate) ends: Ends,
    pub(crate) heights: &'a [u16],
    pub(crate) order: &'a [u16],
}

impl<'a> Filling<'a> {
    // Flags the pairs where both leave the fix `a`, the route by the leg `e`.
    fn flag_countermoves(&self, margins: &mut [u32], a: u16, e: u16) {
        let Some(leg) = route_leg(self.snapshot, self.ends, e) else {
            return;
        };
        for f in self.snapshot.legs_from(a) {
            if let Some(counter) = rival_leg(self.snapshot, self.ends, f) {
                set_margin(margins, leg.to, counter.to, REACHED);
            }
        }
    }

    // Flags the pairs to which the next move leads, the route being at `a` and the rival at `b`.
    fn flag_next(&self, margins: &mut [u32], a: u16, b: u16) {
        if a == b {
            for e in self.snapshot.legs_from(a) {
                self.flag_countermoves(margins, a, e);
            }
        } else if height_of(self.heights, b) < height_of(self.heights, a) {
            for f in self.snapshot.legs_from(b) {
                if let Some(leg) = rival_leg(self.snapshot, self.ends, f) {
                    set_margin(margins, a, leg.to, REACHED);
                }
            }
        } else {
            for e in self.snapshot.legs_from(a) {
                if let Some(leg) = route_leg(self.snapshot, self.ends, e) {
                    set_margin(margins, leg.to, b, REACHED);
                }
            }
        }
    }

    // Flags each pair that route and rival come to from the departure, in a table without margins.
    pub(crate) fn flag_reached(&self, margins: &mut [u32]) {
        set_margin(margins, self.ends.from, self.ends.from, REACHED);
        for a in self.order.iter().rev() {
            for b in self.order.iter().rev() {
                if margin_between(margins, self.snapshot.n(), *a, *b) != 0 {
                    self.flag_next(margins, *a, *b);
                }
            }
        }
    }

    // The margin that the next move keeps, in a table that is being filled in.
    fn margin_to_fill(&self, margins: &[u32], a: u16, b: u16) -> u32 {
        let table = MarginTable {
            snapshot: self.snapshot,
            ends: self.ends,
            heights: self.heights,
            margins,
        };
        table.kept_margin(a, b)
    }

    // Fills in the margins of the pairs that are flagged.
    pub(crate) fn fill_margins(&self, margins: &mut [u32]) {
        for a in self.order {
            for b in self.order {
                if margin_between(margins, self.snapshot.n(), *a, *b) != 0 {
                    let margin = self.margin_to_fill(margins, *a, *b);
                    set_margin(margins, *a, *b, margin);
                }
            }
        }
    }
}
