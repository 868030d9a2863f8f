// The bytes of a file from the mark of a record on, and the record that they begin with.
ghost use Rattle.std.specs.Prelude.{◌≡◌, ◌+◌, ◌<◌, ◌≤◌, ◌↔◌, IsTrue, length, take, drop, MatchResult};
ghost use Rattle.chart_format.specs.Format.{IsNameByte, IsName, mark_length};
ghost use Rattle.chart_format.specs.Reports.{bytes_report, record_report, chart_report, Fails};
ghost use Rattle.chart_format.specs.Checks.{Pass, HasMark, mark_checks, kind_checks, body_checks};
ghost use Rattle.chart_format.specs.Checks.{chart_body_checks, fix_body_checks, leg_body_checks};
ghost use Rattle.chart_format.specs.Checks.{fixes_in, legs_in, leg_in};
ghost use Rattle.chart_format.specs.Bodies.{IsBody, Says};

use super::faults::{BytesFault, ChartFault, RecordFault};
use super::record::{Record, RecordKind, row_in_body};
use super::sizes::{CHART_BODY, LENGTH_BYTES, MAX_NAME, MIN_NAME};
use chart::limits::are_valid_counts;

/// The part of a file from a place on; nothing from its end on.
pub fn rest_from(file: &[u8], at: usize) -> &[u8]
    ensures { result.now ≡ drop at file.now }
{
    file.get(at..).unwrap_or(&[])
}

// Whether a byte is A to Z or 0 to 9.
fn is_name_byte(b: u8) -> bool
    ensures { IsTrue result ↔ IsNameByte b }
{
    b.is_ascii_uppercase() || b.is_ascii_digit()
}

// Whether a fix may have this name.
fn is_name(name: &[u8]) -> bool
    ensures { IsTrue result ↔ IsName name.now }
{
    (MIN_NAME..=MAX_NAME).contains(&name.len()) && name.iter().all(|b| is_name_byte(*b))
}

/// Bytes of a record with all that follows it.
#[derive(Clone, Copy, Debug, PartialEq, Eq)]
pub struct Input<'a> {
    /// The bytes, to the end of the file.
    pub bytes: &'a [u8],
    /// The place of the record's mark in the file, in bytes from its beginning. A fault of the record is told there.
    pub place: usize,
}

impl<'a> Input<'a> {
    /// The kind of the record whose mark these bytes begin with, and the bytes after the mark, still at the place of the mark.
    /// It is refused where the mark is not complete (fault 1) and where it is that of no kind (fault 2).
    pub fn split_mark(&self) -> Result<(RecordKind, Input<'a>), BytesFault>
        ensures { MatchResult result
            (λ k. (mark_length ≤ length self.now.bytes.now) × HasMark k.0 self.now.bytes.now × IsBody self.now k.1)
            (λ e. Fails (mark_checks self.now.bytes.now) self.now.place (bytes_report e)) }
    {
        let Input { bytes, place } = *self;
        let (kind, body) = match bytes {
            [b'C', b'H', body @ ..] => (RecordKind::Chart, body),
            [b'F', b'X', body @ ..] => (RecordKind::Fix, body),
            [b'L', b'G', body @ ..] => (RecordKind::Leg, body),
            [b'E', b'N', body @ ..] => (RecordKind::End, body),
            [_, _, ..] => return Err(BytesFault::Unknown { place }),
            _ => return Err(BytesFault::Short { place }),
        };
        Ok((kind, Input { bytes: body, place }))
    }

    /// The first `count` bytes of a body. It is refused where there are fewer (fault 1).
    pub fn complete(&self, count: usize) -> Result<&'a [u8], BytesFault>
        ensures { MatchResult result
            (λ b. (count ≤ length self.now.bytes.now) × (b.now ≡ take count self.now.bytes.now))
            (λ e. (length self.now.bytes.now < count) × (e ≡ BytesFault.Short self.now.place)) }
    {
        self.bytes
            .get(..count)
            .ok_or(BytesFault::Short { place: self.place })
    }

    // The numbers of fixes and of legs in a chart record's body.
    fn chart(&self) -> Result<Record<'a>, RecordFault>
        ensures { MatchResult result
            (λ x. Pass (chart_body_checks self.now.bytes.now)
            × (x ≡ Record.Chart (fixes_in self.now.bytes.now) (legs_in self.now.bytes.now)))
            (λ e. Fails (chart_body_checks self.now.bytes.now) self.now.place (record_report e)) }
    {
        let (&[fixes, high, low], _) = self
            .bytes
            .split_first_chunk::<CHART_BODY>()
            .ok_or(BytesFault::Short { place: self.place })?;
        let fixes = u16::from(fixes);
        let legs = u16::from_be_bytes([high, low]);
        if !are_valid_counts(fixes, legs as usize) {
            return Err(RecordFault::BadCounts { place: self.place });
        }
        Ok(Record::Chart { fixes, legs })
    }

    // The name in a fix record's body.
    fn fix(&self) -> Result<Record<'a>, RecordFault>
        ensures { MatchResult result
            (λ x. Pass (fix_body_checks self.now.bytes.now) × Says RecordKind.Fix self.now.bytes.now x)
            (λ e. Fails (fix_body_checks self.now.bytes.now) self.now.place (record_report e)) }
    {
        let len = self.complete(LENGTH_BYTES)?[0] as usize;
        let name = &self.complete(LENGTH_BYTES + len)?[LENGTH_BYTES..];
        if !is_name(name) {
            return Err(RecordFault::BadName { place: self.place });
        }
        Ok(Record::Fix { name })
    }

    // The leg in a leg record's body.
    fn leg(&self) -> Result<Record<'a>, RecordFault>
        ensures { MatchResult result
            (λ x. Pass (leg_body_checks self.now.bytes.now) × (x ≡ Record.Leg (leg_in self.now.bytes.now)))
            (λ e. Fails (leg_body_checks self.now.bytes.now) self.now.place (record_report e)) }
    {
        let row = row_in_body(self.bytes).ok_or(BytesFault::Short { place: self.place })?;
        if !row.has_valid_times() {
            return Err(RecordFault::BadTimes { place: self.place });
        }
        Ok(Record::Leg { row })
    }

    /// The record of this kind in a body. It is refused where the body is not complete (fault 1), and then where the counts of a
    /// chart (fault 4), the name of a fix (fault 5), or the times or the level of a leg (fault 8) are outside their limits.
    pub fn record(&self, kind: RecordKind) -> Result<Record<'a>, RecordFault>
        ensures { MatchResult result
            (λ x. Pass (body_checks kind self.now.bytes.now) × Says kind self.now.bytes.now x)
            (λ e. Fails (body_checks kind self.now.bytes.now) self.now.place (record_report e)) }
    {
        match kind {
            RecordKind::Chart => self.chart(),
            RecordKind::Fix => self.fix(),
            RecordKind::Leg => self.leg(),
            RecordKind::End => Ok(Record::End),
        }
    }

    /// The body of the record whose mark these bytes begin with. It is refused as `split_mark` is (faults 1 and 2), and where the
    /// record is of another kind than this, which is the one due (fault 3).
    pub fn expect_kind(&self, kind: RecordKind) -> Result<Input<'a>, ChartFault>
        ensures { MatchResult result
            (λ b. Pass (kind_checks kind self.now.bytes.now) × IsBody self.now b)
            (λ e. Fails (kind_checks kind self.now.bytes.now) self.now.place (chart_report e)) }
    {
        let (found, body) = self.split_mark().map_err(RecordFault::from)?;
        if found != kind {
            return Err(ChartFault::OutOfPlace { place: self.place });
        }
        Ok(body)
    }
}
