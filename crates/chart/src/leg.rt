// A leg. Its times and its level are within their limits in every value that exists. It has the
// fields of a row once more, so that what is said of legs reads `leg.from`, and not `leg.row.from`.
ghost use Rattle.std.specs.Prelude.{◌≤◌, ◌≢◌};
ghost use Rattle.chart.specs.Limits.{max_seconds, max_level};

use super::row::Standing;

/// One leg of a chart: it leads from a fix to another one, takes a time from a least to a most, and
/// has a top level. The two fixes differ, the times are in order and at most 100,000 seconds, and
/// the level is at most 600 hundreds of feet.
#[derive(Clone, Copy)]
pub struct Leg {
    /// The number of the fix that the leg leaves.
    pub from: u16,
    /// The number of the fix that the leg enters.
    pub to: u16,
    /// The least time that the leg takes, in seconds.
    pub low: u32,
    /// The most time that the leg takes, in seconds.
    pub high: u32,
    /// The highest level at which the leg may be flown, in hundreds of feet.
    pub top: u16,
    /// Whether the leg may be flown.
    pub standing: Standing,
    ghost apart: { (from ≢ to) },
    ghost ordered: { low ≤ high },
    ghost bounded: { high ≤ max_seconds },
    ghost level: { top ≤ max_level },
}
