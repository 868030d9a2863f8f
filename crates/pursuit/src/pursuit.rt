// A pursuit on a chart between two ends, made once for many chains.
use super::filling::Filling;
use super::heights::{every_leg_rises, falling_order, find_heights};
use super::margin_table::MarginTable;
use super::margins::{MAX_MARGINS, PURSUIT_FIXES, clear_margins};
use arrayvec::ArrayVec;
use chart::{Chart, Ends};
use search::Snapshot;

/// A pursuit on a chart between two ends, by which the pursuit bounds of chains are worked out: the heights of the fixes, and
/// a table of margins in seconds. It is large and of fixed size, so that a search fills one in its place and lends it.
#[derive(Drop)]
pub struct Pursuit {
    // How many fixes the chart has.
    pub(crate) fixes: u16,
    pub(crate) heights: [u16; PURSUIT_FIXES],
    // The fixes from the highest down.
    pub(crate) order: ArrayVec<u16, PURSUIT_FIXES>,
    pub(crate) margins: [u32; MAX_MARGINS],
}

impl Pursuit {
    ghost use Rattle.std.specs.Prelude.{◌≡◌, ◌↔◌, IsTrue};
    ghost use Rattle.search.specs.Snapshots.{snapshot_fixes};
    ghost use Rattle.pursuit.specs.Pursuits.{HasRisingHeights};
    ghost use Rattle.pursuit.specs.Answers.{IsPursuit, HasNoMargin, fixes_of_margins, query_on};

    /// A pursuit without margins yet, for `fill`. It takes no memory but its own.
    pub fn new() -> Pursuit
        ensures { HasNoMargin result }
    {
        Pursuit {
            fixes: 0,
            heights: [0; PURSUIT_FIXES],
            order: ArrayVec::new(),
            margins: [0; MAX_MARGINS],
        }
    }

    /// Fills the pursuit for a chart between two ends, and returns whether it serves them: it does just where for some heights
    /// every leg that a rival may have leads to a higher fix. Where it does not, nothing is promised of the pursuit, and it may
    /// be filled again. How high its margins are is tested, and not promised. What it held before is lost in every case.
    pub fn fill(&mut self, snapshot: &Snapshot, ends: Ends) -> bool
        ensures serves { IsTrue result → IsPursuit (query_on snapshot.now ends) self.new }
        ensures every_fix { IsTrue result → fixes_of_margins self.new ≡ snapshot_fixes snapshot.now }
        ensures exactly_where_legs_rise { IsTrue result ↔ HasRisingHeights (query_on snapshot.now ends) }
    {
        self.fixes = snapshot.n();
        self.heights = find_heights(snapshot, ends);
        if !every_leg_rises(snapshot, ends, &self.heights) {
            return false;
        }
        falling_order(snapshot, &self.heights, &mut self.order);
        let filling = Filling {
            snapshot,
            ends,
            heights: &self.heights,
            order: self.order.as_slice(),
        };
        clear_margins(&mut self.margins, snapshot.n());
        filling.flag_reached(&mut self.margins);
        filling.fill_margins(&mut self.margins);
        let table = MarginTable {
            snapshot,
            ends,
            heights: &self.heights,
            margins: &self.margins,
        };
        // What is filled in passes the check, which is tested and not proved.
        if !table.is_each_supported() {
            self.margins.fill(0);
        }
        true
    }
}
