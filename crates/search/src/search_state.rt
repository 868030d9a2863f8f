// A search: over which snapshot and for which kind of total, and how far it has come with each fix. It picks the best
// of the fixes that are reached, settles it, and goes on until it picks the destination, or none is reached and not
// settled.
ghost use Rattle.std.specs.Prelude.{◌≡◌, ◌+◌, ◌<◌, length};
ghost use Rattle.chart.specs.Limits.{max_fixes};

use super::snapshot::Snapshot;
use chart::{Ends, Kind, Standing};

// How far the search has come with a fix. A state is copied before it is compared by `==`, or matched: an element of a
// slice that a struct with ghost fields has, as `Search` has its states, cannot be lent to `==`.
#[derive(Clone, Copy, Debug, PartialEq, Eq)]
pub(crate) enum FixState {
    // It has no label yet.
    Unreached,
    // Its label may still get better.
    Reached,
    // Its label is the best.
    Settled,
}

// The label and the state of each fix. Clauses name the two one by one, since the definitions speak of any labels and
// states, as the steps of a proof do. One list of an enum over the total is not proved to fit in memory, since a
// kind bounds the size of a total alone.
#[derive(Drop)]
pub(crate) struct Search<'a, K: Kind> {
    pub(crate) snapshot: &'a Snapshot,
    pub(crate) kind: &'a K,
    pub(crate) label: &'a mut [K::Total],
    pub(crate) state: &'a mut [FixState],
    ghost labels: { length label.now ≡ max_fixes },
    ghost states: { length state.now ≡ max_fixes },
}

// Each call says that it leaves the snapshot and the kind what they were: no type says what a call through `&mut self`
// leaves alone, so that any form of it is a clause.
impl<'a, K: Kind> Search<'a, K> {
    ghost use Rattle.chart.specs.Best.{BestTotal};
    ghost use Rattle.search.specs.Snapshots.{snapshot_fixes, snapshot_legs};
    ghost use Rattle.search.specs.internal.Labels.{IsBetterOf, PicksBestReached, IsSettled, IsBestReached};
    ghost use Rattle.search.specs.internal.Invariants.{AreTwoFixes, NoneIsReached, IsLegOf, KeepsProblem};
    ghost use Rattle.search.specs.internal.Invariants.{HasSearchInvariant, HasRelaxingInvariant};
    ghost use Rattle.search.specs.internal.Invariants.{Advances, Settles, IsImproved};

    // The search between two fixes, over labels that are all the start and states that are all unreached.
    pub(crate) fn run(&mut self, ends: Ends) -> Option<K::Total>
        requires ends { AreTwoFixes (snapshot_fixes self.old.snapshot.now) ends.from ends.to }
        requires unreached { NoneIsReached (K.rule self.old.kind.now) self.old.label.now self.old.state.now }
        ensures { BestTotal (K.rule self.old.kind.now) (snapshot_legs self.old.snapshot.now) ends.from ends.to result }
    {
        let destination = ends.to as usize;
        self.state[ends.from as usize] = FixState::Reached;
        while let Some(u) = self.pick() {
            if u == destination {
                return Some(self.label[u]);
            }
            self.settle(u);
        }
        None
    }

    // The better of two fixes by their labels, and the first where neither is.
    fn better_of(&self, u: usize, v: usize) -> usize
        requires { (u < max_fixes) × (v < max_fixes) }
        ensures { IsBetterOf (K.rule self.now.kind.now) self.now.label.now u v result }
    {
        if self.kind.better(self.label[v], self.label[u]) {
            return v;
        }
        u
    }

    // The best of the fixes that are reached; a state is matched, as `FixState` says.
    fn pick(&self) -> Option<usize>
        ensures { PicksBestReached (K.rule self.now.kind.now) self.now.label.now self.now.state.now
            (snapshot_fixes self.now.snapshot.now) result }
    {
        (0..self.snapshot.fixes as usize)
            .filter(|v| matches!(self.state[*v], FixState::Reached))
            .reduce(|u, v| self.better_of(u, v))
    }

    // Takes `total` as the label of the fix `to`, which is not settled, unless its label is as good.
    fn improve_label(&mut self, to: usize, total: K::Total)
        requires fix { to < max_fixes }
        requires unsettled { IsSettled self.old.state.now to → ⊥ }
        ensures same { KeepsProblem self.old.snapshot.now self.old.kind.now self.new.snapshot.now self.new.kind.now }
        ensures improved { IsImproved (K.rule self.old.kind.now) self.old.label.now self.old.state.now to total
            self.new.label.now self.new.state.now }
    {
        let state = self.state[to];
        if state != FixState::Unreached && !self.kind.better(total, self.label[to]) {
            return;
        }
        self.label[to] = total;
        self.state[to] = FixState::Reached;
    }

    // Relaxes the leg `j`, which leaves the fix `u`, which was settled last. A settled fix is left out before the
    // leg is added: no total is then made of more legs than a route can have.
    fn relax(&mut self, u: usize, j: u16)
        requires relaxing { HasRelaxingInvariant (K.rule self.old.kind.now) self.old.snapshot.now
            self.old.label.now self.old.state.now u j }
        requires leg { IsLegOf (snapshot_legs self.old.snapshot.now) u j }
        ensures same { KeepsProblem self.old.snapshot.now self.old.kind.now self.new.snapshot.now self.new.kind.now }
        ensures advances { Advances (K.rule self.old.kind.now) self.old.snapshot.now u j (j + 1)
            self.old.label.now self.old.state.now self.new.label.now self.new.state.now }
    {
        let leg = self.snapshot.leg_at(j);
        if leg.standing != Standing::Open {
            return;
        }
        let to = leg.to as usize;
        let state = self.state[to];
        if state == FixState::Settled {
            return;
        }
        let total = self.kind.add(self.label[u], j, &leg);
        self.improve_label(to, total);
    }

    // Relaxes every leg of the fix `u`, which was settled last.
    fn relax_legs(&mut self, u: u16)
        requires { HasRelaxingInvariant (K.rule self.old.kind.now) self.old.snapshot.now
            self.old.label.now self.old.state.now u 0 }
        ensures same { KeepsProblem self.old.snapshot.now self.old.kind.now self.new.snapshot.now self.new.kind.now }
        ensures advances { Advances (K.rule self.old.kind.now) self.old.snapshot.now
            u 0 (length (snapshot_legs self.old.snapshot.now))
            self.old.label.now self.old.state.now self.new.label.now self.new.state.now }
    {
        let snapshot = self.snapshot;
        for j in snapshot.legs_from(u) {
            self.relax(u as usize, j);
        }
    }

    // Settles the fix `u`, the best of those that are reached, and relaxes its legs.
    fn settle(&mut self, u: usize)
        requires rest { HasSearchInvariant (K.rule self.old.kind.now) self.old.snapshot.now
            self.old.label.now self.old.state.now }
        requires pick { IsBestReached (K.rule self.old.kind.now) self.old.label.now self.old.state.now
            (snapshot_fixes self.old.snapshot.now) u }
        ensures same { KeepsProblem self.old.snapshot.now self.old.kind.now self.new.snapshot.now self.new.kind.now }
        ensures settles { Settles (K.rule self.old.kind.now) self.old.snapshot.now u
            self.old.label.now self.old.state.now self.new.label.now self.new.state.now }
    {
        self.state[u] = FixState::Settled;
        self.relax_legs(u as u16);
    }
}
