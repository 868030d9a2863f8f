// What a file that is checked holds, by the places of its records: names, and legs into memory.
ghost use Rattle.std.specs.Prelude.{◌≡◌, ◌+◌, ◌*◌, ◌≤◌, ◌↔◌, IsTrue, length, drop, MatchResult};
ghost use Rattle.chart_format.specs.Format.{IsUnused, leg_record_length};
ghost use Rattle.chart_format.specs.Checks.{body, name_in, leg_in};
ghost use Rattle.reader.specs.Files.{names_at};
ghost use Rattle.reader.specs.Readings.{name_number, IsNameOfFix, NameRefused};
ghost use Rattle.reader.specs.internal.RecordPlaces.{HasFixBody, HaveFixBodies, IsNameIndex, legs_at};

use super::file_index::Counts;
use super::fix_name::{FixName, NoSuchFix};
use arrayvec::ArrayVec;
use chart::Row;
use chart::limits::MAX_FIXES;
use chart_format::sizes::{LEG_RECORD, MARK_BYTES, NAME_OFFSET};
use chart_format::{rest_from, row_in_body};

// What a file was found to hold: its counts, and the place where the records of its legs begin. The places of the records of its
// names go into a list that the caller lends: to move them with this from call to call took as long as to read a small file.
#[derive(Clone, Copy)]
pub(crate) struct CheckedFile {
    pub(crate) counts: Counts,
    pub(crate) base: usize,
}

// The name in the fix record at a place.
fn name_of_record(file: &[u8], at: usize) -> &[u8]
    requires { HasFixBody file.now at }
    ensures { result.now ≡ name_in (body (drop at file.now)) }
{
    let record = rest_from(file, at);
    let len = record[MARK_BYTES] as usize;
    &record[NAME_OFFSET..NAME_OFFSET + len]
}

// Whether the name is none of those whose records stand at these places. With `all` in place of the loop it is not proved that
// its closure may be called, since `name_of_record` requires that a record stands at the place.
pub(crate) fn is_unused(file: &[u8], starts: &[usize], name: &[u8]) -> bool
    requires { HaveFixBodies file.now starts.now }
    ensures { IsTrue result ↔ IsUnused (names_at file.now starts.now) name.now }
{
    for at in starts {
        if name_of_record(file, *at) == name {
            return false;
        }
    }
    true
}

// The name of the fix of a number, in a file whose names have their records at these places; none beyond them.
#[tactic(auto, using(crate::proofs::NamesAt::names_length))]
pub(crate) fn name_of_fix<'a>(
    file: &'a [u8],
    starts: &ArrayVec<usize, MAX_FIXES>,
    fix: u16,
) -> Result<FixName<'a>, NoSuchFix>
    requires bodies { HaveFixBodies file.now starts.now.items }
    requires indexed { IsNameIndex file.now starts.now.items }
    ensures { MatchResult result
        (λ name. IsNameOfFix file.now (names_at file.now starts.now.items) fix name)
        (λ e. NameRefused (names_at file.now starts.now.items) fix (name_number e)) }
{
    let start = starts.get(fix as usize).ok_or(NoSuchFix)?;
    Ok(FixName {
        text: name_of_record(file, *start),
        place: start + NAME_OFFSET,
    })
}

// The leg whose record stands at a place.
fn leg_of_record(file: &[u8], at: usize) -> Row
    requires { at + leg_record_length ≤ length file.now }
    ensures { result ≡ leg_in (body (drop at file.now)) }
{
    row_in_body(rest_from(rest_from(file, at), MARK_BYTES)).unwrap()
}

// Puts the legs whose records stand in the file from a place on into rows. With `zip` over `chunks_exact` in place of the index
// nothing is known of the rows after the loop.
pub(crate) fn fill(file: &[u8], base: usize, rows: &mut [Row])
    requires { base + leg_record_length * length rows.old ≤ length file.now }
    ensures { rows.new ≡ legs_at file.now base (length rows.old) }
{
    for (k, row) in rows.iter_mut().enumerate() {
        *row = leg_of_record(file, base + LEG_RECORD * k);
    }
}
