// How long the parts of a chart file are, in bytes, and where in a record they stand. `specs/Format.antt` has the same numbers
// for the promises.

/// The bytes of a mark, with which each record begins. The end record has no others.
pub const MARK_BYTES: usize = 2;

/// The bytes of a chart record's body: one for the number of fixes, two for the number of legs.
pub const CHART_BODY: usize = 3;

/// The bytes of a leg record's body: one for each of its fixes, four each for low and high, two for top.
pub const LEG_BODY: usize = 12;

/// The bytes of the number that a fix record's body begins with, the length of its name.
pub const LENGTH_BYTES: usize = 1;

/// The bytes of a leg's record: its mark and its body.
pub const LEG_RECORD: usize = MARK_BYTES + LEG_BODY;

/// How many bytes after the beginning of a fix's record its name stands.
pub const NAME_OFFSET: usize = MARK_BYTES + LENGTH_BYTES;

/// The fewest bytes of a name.
pub const MIN_NAME: usize = 2;

/// The most bytes of a name.
pub const MAX_NAME: usize = 5;
