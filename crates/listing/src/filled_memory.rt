// Memory that is filled before a call, so that one sees which places the call leaves alone.

/// What the places of memory hold before a call. No leg has the number, and no plan replies it.
pub const FILLER: u16 = 9999;

/// Whether all places hold their filler.
pub fn are_untouched(places: &[u16]) -> bool {
    places.iter().all(|place| *place == FILLER)
}
