// A snapshot of a chart: its legs in an array, and for each fix the legs that leave it, one after the other in rising
// order of number. To take one, the legs are copied, and then indexed from the last to the first.
ghost use Rattle.std.specs.Prelude.{◌≡◌, ◌<◌, ◌≤◌, length, replicate, None};
ghost use Rattle.std.proofs.Props.{props};
ghost use Rattle.chart.specs.Legs.{IsChart};
ghost use Rattle.chart.specs.Limits.{max_fixes, max_legs};
ghost use Rattle.search.specs.internal.Index.{indexed_legs, first_legs, next_legs, FitsIndex, IsAdjacencyIndex};

use super::legs_from::LegsFrom;
use chart::limits::{MAX_FIXES, MAX_LEGS};
use chart::{Chart, Leg, Standing};

// A leg of a snapshot, and the one after it that leaves the same fix.
#[derive(Clone, Copy)]
pub(crate) struct IndexedLeg {
    pub(crate) leg: Leg,
    pub(crate) next: Option<u16>,
}

/// The fixes and legs of a chart as they stood when it was taken, with the legs indexed by the fix that they leave. It
/// is a chart itself, of the same fixes and legs.
// The first `count` of `legs` are the chart's, and the array has room for the most legs. An `ArrayVec` would be made of
// such an array too, since there is no default leg. And `first` has the first leg that leaves a fix.
// Legs are indexed by their numbers, since there is no heap.
#[derive(Drop)]
pub struct Snapshot {
    pub(crate) fixes: u16,
    pub(crate) count: u16,
    pub(crate) legs: [IndexedLeg; MAX_LEGS],
    pub(crate) first: [Option<u16>; MAX_FIXES],
    ghost whole: { length legs ≡ max_legs },
    ghost filled: { count ≤ max_legs },
    ghost is_chart: { IsChart fixes (first_legs count legs) },
    ghost index: { IsAdjacencyIndex (first_legs count legs) 0 first (next_legs legs) } by { Prim.hlevel props },
}

// Copies every leg. The loop counts, since a chart gives a leg by its number.
fn copy_legs<C: Chart>(chart: &C, legs: &mut [IndexedLeg])
    requires { length legs.old ≡ length (C.legs chart.now) }
    ensures { indexed_legs legs.new ≡ C.legs chart.now }
{
    for k in 0..chart.m() {
        if let Some(leg) = chart.leg(k) {
            legs[k as usize] = IndexedLeg { leg, next: None };
        }
    }
}

// Indexes every leg. From the last to the first, a leg is put before those of its fix that have a higher number. The
// loop counts: after `iter_mut().enumerate().rev()` a proof knows nothing of the elements.
fn index_legs(legs: &mut [IndexedLeg], first: &mut [Option<u16>])
    requires fits_index { FitsIndex legs.old }
    requires none { first.old ≡ replicate max_fixes None }
    ensures same { indexed_legs legs.new ≡ indexed_legs legs.old }
    ensures index { IsAdjacencyIndex (indexed_legs legs.old) 0 first.new (next_legs legs.new) }
{
    for k in (0..legs.len()).rev() {
        let entry = &mut legs[k];
        let head = &mut first[entry.leg.from as usize];
        entry.next = *head;
        *head = Some(k as u16);
    }
}

impl Snapshot {
    ghost use Rattle.chart.specs.Legs.{leg_at};
    ghost use Rattle.search.specs.Snapshots.{snapshot_fixes, snapshot_legs, IsFirstLeg, IsNextLeg, legs_leaving};

    /// The snapshot of a chart, which has the fixes and the legs that the chart has.
    pub fn of<C: Chart>(chart: &C) -> Snapshot
        ensures same_fixes { snapshot_fixes result ≡ C.fixes chart.now }
        ensures same_legs { snapshot_legs result ≡ C.legs chart.now }
    {
        let blank = Leg {
            from: 0,
            to: 1,
            low: 0,
            high: 0,
            top: 0,
            standing: Standing::Closed,
        };
        let fixes = chart.n();
        let count = chart.m();
        let mut legs = [IndexedLeg {
            leg: blank,
            next: None,
        }; MAX_LEGS];
        let mut first = [None; MAX_FIXES];
        let row = &mut legs[..count as usize];
        copy_legs(chart, row);
        index_legs(row, &mut first);
        Snapshot {
            fixes,
            count,
            legs,
            first,
        }
    }

    /// The number of the first leg that leaves a fix; none where no leg leaves it, as where `fix` is no fix's number.
    // The number is tested: with `get` in place of the test the proof was tried and did not close by what the check
    // finds.
    pub fn first_leg(&self, fix: u16) -> Option<u16>
        ensures { IsFirstLeg (snapshot_legs self.now) fix 0 result }
    {
        if fix >= self.fixes {
            return None;
        }
        self.first[fix as usize]
    }

    /// The number of the first leg after the leg `k` that leaves the same fix; none where there is no such leg, or
    /// where `k` is no leg's number.
    // The number is tested, as in `leg`.
    pub fn next_leg(&self, k: u16) -> Option<u16>
        ensures { IsNextLeg (snapshot_legs self.now) k result }
    {
        if k >= self.count {
            return None;
        }
        self.legs[k as usize].next
    }

    /// The numbers of the legs that leave a fix, rising; none where `fix` is no fix's number.
    pub fn legs_from(&self, fix: u16) -> LegsFrom<'_>
        ensures { result ≡ legs_leaving (snapshot_legs self.now) fix 0 }
    {
        LegsFrom {
            snapshot: self,
            next: self.first_leg(fix),
        }
    }

    // The leg of a number.
    pub(crate) fn leg_at(&self, k: u16) -> Leg
        requires { k < length (snapshot_legs self.now) }
        ensures { result ≡ leg_at (snapshot_legs self.now) k }
    {
        self.legs[k as usize].leg
    }
}

impl Chart for Snapshot {
    ghost use Rattle.search.specs.Snapshots.{snapshot_fixes, snapshot_legs};
    ghost use Rattle.search.specs.laws.SnapshotLaws.{snapshot_is_chart};

    ghost fixes = { snapshot_fixes };

    ghost legs = { snapshot_legs };

    ghost is_chart = { snapshot_is_chart };

    fn n(&self) -> u16 {
        self.fixes
    }

    fn m(&self) -> u16 {
        self.count
    }

    // The number is tested, and not looked up by `get` alone, since the array has places that are no legs.
    fn leg(&self, k: u16) -> Option<Leg> {
        if k < self.count {
            return Some(self.leg_at(k));
        }
        None
    }
}
