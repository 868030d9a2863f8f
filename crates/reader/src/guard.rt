// The reading of one record, by a guard over the cursor: unless the record is accepted, the cursor stands before its mark again.
ghost use Rattle.std.specs.Prelude.{◌≡◌, ◌+◌, drop, MatchResult};
ghost use Rattle.chart_format.specs.Format.{mark_length};
ghost use Rattle.chart_format.specs.Reports.{chart_report, Fails};
ghost use Rattle.chart_format.specs.Checks.{Pass, body, kind_checks, body_checks, record_checks};
ghost use Rattle.chart_format.specs.Bodies.{Says, body_length};

use super::cursor::Cursor;
use chart_format::sizes::MARK_BYTES;
use chart_format::{ChartFault, Input, Record, RecordKind, rest_from};

// Mark and body are read through the guard, which moves the cursor past each, so that every way out but `accept` has to put the
// cursor back, which the drop does. The cursor's type names no lifetime, and the file is passed beside it: of a cursor that held
// the file nothing would be known after the drop.
pub(crate) struct Guard<'r> {
    cursor: &'r mut Cursor,
    // The place of the record's mark.
    start: usize,
}

impl Drop for Guard<'_> {
    fn drop(self)
        ensures { self.exit.0.now.place ≡ self.entry.start }
    {
        let Guard { cursor, start } = self;
        cursor.place = start;
    }
}

impl<'r> Guard<'r> {
    pub(crate) fn new(cursor: &'r mut Cursor) -> Guard<'r>
        ensures same_reference { result.cursor.ghost_name ≡ cursor.entry.ghost_name }
        ensures there { result.cursor.now ≡ cursor.old }
        ensures start { result.start ≡ cursor.old.place }
    {
        let start = cursor.place;
        Guard { cursor, start }
    }

    // The place of the record's mark.
    pub(crate) fn start(&self) -> usize
        ensures { result ≡ self.now.start }
    {
        self.start
    }

    // The part of the file that is still to be read of the record; a fault in it is told at the place of the mark.
    fn rest<'a>(&self, file: &'a [u8]) -> Input<'a>
        ensures bytes { result.bytes.now ≡ drop self.now.cursor.now.place file.now }
        ensures place { result.place ≡ self.now.start }
    {
        Input {
            bytes: rest_from(file, self.cursor.place),
            place: self.start,
        }
    }

    // Reads the mark of a record of this kind.
    fn read_mark(&mut self, file: &[u8], kind: RecordKind) -> Result<(), ChartFault>
        ensures same_reference { self.new.cursor.ghost_name ≡ self.old.cursor.ghost_name }
        ensures same_start { self.new.start ≡ self.old.start }
        ensures reads { MatchResult result
            (λ _. Pass (kind_checks kind (drop self.old.cursor.now.place file.now))
            × (self.new.cursor.now.place ≡ self.old.cursor.now.place + mark_length))
            (λ e. Fails (kind_checks kind (drop self.old.cursor.now.place file.now)) self.old.start (chart_report e)) }
    {
        self.rest(file).expect_kind(kind)?;
        self.cursor.place += MARK_BYTES;
        Ok(())
    }

    // Reads the body of a record of this kind, after its mark.
    fn read_body<'a>(&mut self, file: &'a [u8], kind: RecordKind) -> Result<Record<'a>, ChartFault>
        ensures same_reference { self.new.cursor.ghost_name ≡ self.old.cursor.ghost_name }
        ensures same_start { self.new.start ≡ self.old.start }
        ensures reads { MatchResult result
            (λ x. Pass (body_checks kind (drop self.old.cursor.now.place file.now))
            × Says kind (drop self.old.cursor.now.place file.now) x
            × (self.new.cursor.now.place ≡ self.old.cursor.now.place + body_length x))
            (λ e. Fails (body_checks kind (drop self.old.cursor.now.place file.now)) self.old.start (chart_report e)) }
    {
        let record = self.rest(file).record(kind)?;
        self.cursor.place += record.body_length();
        Ok(record)
    }

    // Reads the record of this kind, from its mark to the end of its body. Each call names its kind, so that each copy of this has
    // the checks of that kind alone, and moves no record of another.
    #[inline(always)]
    pub(crate) fn read_record<'a>(
        &mut self,
        file: &'a [u8],
        kind: RecordKind,
    ) -> Result<Record<'a>, ChartFault>
        requires { self.old.cursor.now.place ≡ self.old.start }
        ensures same_reference { self.new.cursor.ghost_name ≡ self.old.cursor.ghost_name }
        ensures same_start { self.new.start ≡ self.old.start }
        ensures reads { MatchResult result
            (λ x. Pass (record_checks kind (drop self.old.start file.now))
            × Says kind (body (drop self.old.start file.now)) x
            × (self.new.cursor.now.place ≡ self.old.start + mark_length + body_length x))
            (λ e. Fails (record_checks kind (drop self.old.start file.now)) self.old.start (chart_report e)) }
    {
        self.read_mark(file, kind)?;
        Ok(self.read_body(file, kind)?)
    }

    // Accepts the record: the cursor stays where the reading has come to.
    pub(crate) fn accept(self)
        ensures { self.exit.0.now ≡ self.entry.cursor.now }
    {
        let Guard {
            cursor: _,
            start: _,
        } = self;
    }
}
