// Where reading stands in a file: one record after the other, each with all its checks in their order, and then a whole file.
ghost use Rattle.std.specs.Prelude.{◌≡◌, ◌+◌, [], length, MatchResult};
ghost use Rattle.chart_format.specs.Format.{chart_record_length, leg_record_length, mark_length, name_offset};
ghost use Rattle.chart_format.specs.Reports.{chart_report};
ghost use Rattle.chart_format.specs.Checks.{AreBytes, Pass, byte, body, fixes_in, legs_in};
ghost use Rattle.chart_format.specs.Checks.{chart_checks, fix_checks, leg_checks, end_checks};
ghost use Rattle.chart_format.specs.Faults.{IsFaultOf};
ghost use Rattle.reader.specs.Files.{names_at};
ghost use Rattle.reader.specs.Readings.{Accepts};
ghost use Rattle.reader.specs.internal.RecordPlaces.{HaveFixBodies, IsNameIndex};
ghost use Rattle.reader.specs.internal.ReadingStates.{rest_of, IsInside, Refuses, AfterNames, LegsReadTo};
ghost use Rattle.reader.specs.internal.ReadingStates.{IsWholeFile, FaultAt, FaultAmongLegs, IsCheckedFile};

use super::checked_file::{CheckedFile, fill, is_unused};
use super::file_index::Counts;
use super::guard::Guard;
use arrayvec::ArrayVec;
use chart::Row;
use chart::limits::MAX_FIXES;
use chart_format::{ChartFault, Record, RecordKind};

// A place in a file: the number of bytes before it. That it lies in the file is required by the methods that need it, and is no
// invariant: reading begins again at 0 whatever it was. The file is passed to each call, so the type names no lifetime.
#[derive(Clone, Copy, Debug, PartialEq, Eq)]
pub(crate) struct Cursor {
    pub(crate) place: usize,
}

// Where a record is accepted the cursor then stands after it, and where it is refused before its mark.
impl Cursor {
    // The chart's record: the numbers of fixes and of legs, where there is room for so many legs.
    fn read_chart(&mut self, file: &[u8], room: usize) -> Result<Counts, ChartFault>
        ensures { MatchResult result
            (λ n. Pass (chart_checks room (rest_of file.now self.old))
            × (n.fixes ≡ fixes_in (body (rest_of file.now self.old)))
            × (n.legs ≡ legs_in (body (rest_of file.now self.old)))
            × (self.new.place ≡ self.old.place + chart_record_length))
            (λ e. Refuses (chart_checks room (rest_of file.now self.old)) e self.old.place self.new.place) }
    {
        let mut guard = Guard::new(self);
        let Record::Chart { fixes, legs } = guard.read_record(file, RecordKind::Chart)? else {
            unreachable!();
        };
        if legs as usize > room {
            return Err(ChartFault::NoRoom {
                place: guard.start(),
            });
        }
        guard.accept();
        Ok(Counts { fixes, legs })
    }

    // A fix's record, after those at these places.
    fn read_fix(&mut self, file: &[u8], starts: &[usize]) -> Result<(), ChartFault>
        requires { HaveFixBodies file.now starts.now }
        ensures { MatchResult result
            (λ _. Pass (fix_checks (names_at file.now starts.now) (rest_of file.now self.old))
            × (self.new.place ≡ self.old.place + (name_offset + byte (body (rest_of file.now self.old)) 0)))
            (λ e. Refuses (fix_checks (names_at file.now starts.now) (rest_of file.now self.old)) e
            self.old.place self.new.place) }
    {
        let mut guard = Guard::new(self);
        let Record::Fix { name } = guard.read_record(file, RecordKind::Fix)? else {
            unreachable!();
        };
        if !is_unused(file, starts, name) {
            return Err(ChartFault::NameUsed {
                place: guard.start(),
            });
        }
        guard.accept();
        Ok(())
    }

    // A leg's record, in a chart of `n` fixes.
    fn read_leg(&mut self, file: &[u8], n: u16) -> Result<(), ChartFault>
        ensures { MatchResult result
            (λ _. Pass (leg_checks n (rest_of file.now self.old))
            × (self.new.place ≡ self.old.place + leg_record_length))
            (λ e. Refuses (leg_checks n (rest_of file.now self.old)) e self.old.place self.new.place) }
    {
        let mut guard = Guard::new(self);
        let Record::Leg { row } = guard.read_record(file, RecordKind::Leg)? else {
            unreachable!();
        };
        if !row.has_valid_fixes(n) {
            return Err(ChartFault::BadFixes {
                place: guard.start(),
            });
        }
        guard.accept();
        Ok(())
    }

    // The end record.
    fn read_end(&mut self, file: &[u8]) -> Result<(), ChartFault>
        ensures { MatchResult result
            (λ _. Pass (end_checks (rest_of file.now self.old)) × (self.new.place ≡ self.old.place + mark_length))
            (λ e. Refuses (end_checks (rest_of file.now self.old)) e self.old.place self.new.place) }
    {
        let mut guard = Guard::new(self);
        guard.read_record(file, RecordKind::End)?;
        guard.accept();
        Ok(())
    }

    // The names, one after the other: the places of their records, into `starts`, which has none yet.
    fn read_fixes(
        &mut self,
        file: &[u8],
        fixes: u16,
        starts: &mut ArrayVec<usize, MAX_FIXES>,
    ) -> Result<(), ChartFault>
        requires before_names { AfterNames file.now self.old.place fixes (legs_in (body file.now)) [] }
        requires without_starts { starts.old.items ≡ [] }
        ensures { MatchResult result
            (λ _. AfterNames file.now self.new.place fixes (legs_in (body file.now)) starts.new.items
            × (length starts.new.items ≡ fixes))
            (λ e. FaultAt file.now (legs_in (body file.now)) e self.new.place) }
    {
        for _ in 0..fixes {
            let start = self.place;
            self.read_fix(file, starts.as_slice())?;
            starts.push(start);
        }
        Ok(())
    }

    // The legs, one after the other.
    fn read_legs(&mut self, file: &[u8], counts: Counts) -> Result<(), ChartFault>
        requires inside { IsInside file.now self.old }
        requires bytes { AreBytes file.now }
        ensures { MatchResult result
            (λ _. LegsReadTo file.now self.new.place counts.fixes counts.legs self.old.place counts.legs)
            (λ e. FaultAmongLegs file.now counts.fixes counts.legs self.old.place e self.new.place) }
    {
        for _ in 0..counts.legs {
            self.read_leg(file, counts.fixes)?;
        }
        Ok(())
    }

    // The legs, the end record, and that nothing follows it.
    fn read_legs_to_end(&mut self, file: &[u8], counts: Counts) -> Result<(), ChartFault>
        requires inside { IsInside file.now self.old }
        requires bytes { AreBytes file.now }
        ensures { MatchResult result
            (λ _. IsWholeFile file.now counts.fixes counts.legs self.old.place self.new.place)
            (λ e. FaultAmongLegs file.now counts.fixes counts.legs self.old.place e self.new.place) }
    {
        self.read_legs(file, counts)?;
        self.read_end(file)?;
        let place = self.place;
        if place < file.len() {
            return Err(ChartFault::BytesAfter { place });
        }
        Ok(())
    }

    // Checks all records from the beginning of the file, where there is room for so many legs, and puts the places of the records of
    // the names into `starts`, which has none yet.
    fn check_file(
        &mut self,
        file: &[u8],
        room: usize,
        starts: &mut ArrayVec<usize, MAX_FIXES>,
    ) -> Result<CheckedFile, ChartFault>
        requires bytes { AreBytes file.now }
        requires without_starts { starts.old.items ≡ [] }
        ensures { MatchResult result
            (λ f. IsCheckedFile file.now room starts.new.items f.counts.fixes f.counts.legs f.base
            × (self.new.place ≡ length file.now))
            (λ e. IsFaultOf file.now room (chart_report e) × (self.new.place ≡ (chart_report e).place)) }
    {
        self.place = 0;
        let counts = self.read_chart(file, room)?;
        self.read_fixes(file, counts.fixes, starts)?;
        let base = self.place;
        self.read_legs_to_end(file, counts)?;
        Ok(CheckedFile { counts, base })
    }

    // Reads a file from its beginning, and puts its legs into the first places of memory, and the places of the records of its names
    // into `starts`, which has none yet. Later places of memory hold what they held, and all of them where the file is refused.
    pub(crate) fn read_file(
        &mut self,
        file: &[u8],
        memory: &mut [Row],
        starts: &mut ArrayVec<usize, MAX_FIXES>,
    ) -> Result<CheckedFile, ChartFault>
        requires bytes { AreBytes file.now }
        requires without_starts { starts.old.items ≡ [] }
        ensures { MatchResult result
            (λ f. Accepts file.now (names_at file.now starts.new.items) f.counts memory.old memory.new
            × HaveFixBodies file.now starts.new.items
            × IsNameIndex file.now starts.new.items
            × (self.new.place ≡ length file.now))
            (λ e. IsFaultOf file.now (length memory.old) (chart_report e)
            × (self.new.place ≡ (chart_report e).place)
            × (memory.new ≡ memory.old)) }
    {
        let checked = self.check_file(file, memory.len(), starts)?;
        let rows = &mut memory[..checked.counts.legs as usize];
        fill(file, checked.base, rows);
        Ok(checked)
    }
}
