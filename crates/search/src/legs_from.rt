// The legs that leave a fix, one after the other.
ghost use Rattle.std.specs.Iterator.{YieldsFirst, item_count};

use super::snapshot::Snapshot;
use std::marker::Model;

/// The numbers of the legs that leave a fix of a snapshot, rising, seen as the list of those that are left.
#[derive(Drop)]
pub struct LegsFrom<'a> {
    pub(crate) snapshot: &'a Snapshot,
    pub(crate) next: Option<u16>,
}

impl<'a> Model for LegsFrom<'a> {
    ghost use Rattle.std.specs.Prelude.{ℕ, List};

    ghost Value = { List ℕ };

    ghost use Rattle.search.specs.Snapshots.{snapshot_legs};
    ghost use Rattle.search.specs.LegsLeaving.{legs_left_from};
    ghost use Rattle.search.specs.internal.Index.{IsLeg};

    ghost view = { λ it. legs_left_from (snapshot_legs it.snapshot.now) it.next };

    ghost invariant = { λ it. IsLeg (snapshot_legs it.snapshot.now) it.next };
}

impl<'a> Iterator for LegsFrom<'a> {
    type Item = u16;

    ghost next_gives = { YieldsFirst (λ rest. rest) };

    ghost remaining = { item_count (λ rest. rest) };

    fn next(&mut self) -> Option<u16> {
        let k = self.next?;
        self.next = self.snapshot.next_leg(k);
        Some(k)
    }
}
