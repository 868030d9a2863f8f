// The kinds of record that a chart file is made of, the two bytes that mark each, and what its body says.
ghost use Rattle.std.specs.Prelude.{◌≡◌, ◌<◌, ◌≤◌, length, MatchOption};
ghost use Rattle.chart_format.specs.Format.{leg_body_length};
ghost use Rattle.chart_format.specs.Checks.{leg_in};
ghost use Rattle.chart_format.specs.Bodies.{body_length};

use super::sizes::{CHART_BODY, LEG_BODY, LENGTH_BYTES};
use chart::{Row, Standing};

/// A kind of record.
#[derive(Clone, Copy, Debug, PartialEq, Eq)]
pub enum RecordKind {
    /// The first record of a file, marked `CH`: how many fixes and legs the chart has.
    Chart,
    /// The record of a fix, marked `FX`: its name.
    Fix,
    /// The record of a leg, marked `LG`: its two fixes, its times and its level.
    Leg,
    /// The last record, marked `EN`, which has no body.
    End,
}

/// What the body of a record says. The name of a fix is a part of the file itself.
// The counts of a chart are two fields, since `Counts` is the reader's, which is above.
#[derive(Clone, Copy, Debug, PartialEq, Eq)]
pub enum Record<'a> {
    /// How many fixes and legs the chart has.
    Chart { fixes: u16, legs: u16 },
    /// The name of a fix.
    Fix { name: &'a [u8] },
    /// A leg, which is open.
    Leg { row: Row },
    /// The end of the file.
    End,
}

impl Record<'_> {
    /// How many bytes the body has that says this.
    pub fn body_length(&self) -> usize
        ensures { result ≡ body_length self.now }
    {
        match self {
            Record::Chart { .. } => CHART_BODY,
            Record::Fix { name } => LENGTH_BYTES + name.len(),
            Record::Leg { .. } => LEG_BODY,
            Record::End => 0,
        }
    }
}

/// The leg in a leg record's body, which is open; none where the body is not complete. Numbers of several bytes have the high
/// byte first, and what follows the body is not looked at.
pub fn row_in_body(body: &[u8]) -> Option<Row>
    ensures { MatchOption result
        (length body.now < leg_body_length)
        (λ row. (leg_body_length ≤ length body.now) × (row ≡ leg_in body.now)) }
{
    let (&[from, to], rest) = body.split_first_chunk::<2>()?;
    let (low, rest) = rest.split_first_chunk::<4>()?;
    let (high, rest) = rest.split_first_chunk::<4>()?;
    let (top, _) = rest.split_first_chunk::<2>()?;
    Some(Row {
        from: u16::from(from),
        to: u16::from(to),
        low: u32::from_be_bytes(*low),
        high: u32::from_be_bytes(*high),
        top: u16::from_be_bytes(*top),
        standing: Standing::Open,
    })
}
