// A reader of one chart file: how the file is read, and what an accepted file is asked.
ghost use Rattle.std.specs.Prelude.{◌≡◌, ◌≤◌, [], map, length, IsOk, MatchResult};
ghost use Rattle.chart.specs.Limits.{max_fixes};
ghost use Rattle.chart_format.specs.Format.{AreFixNames};
ghost use Rattle.chart_format.specs.Checks.{AreBytes};
ghost use Rattle.chart_format.specs.laws.Names.{fix_names_prop};
ghost use Rattle.arrayvec.specs.ArrayVec.{array_vec_len};
ghost use Rattle.reader.specs.Files.{names_at};
ghost use Rattle.reader.specs.internal.RecordPlaces.{HaveFixBodies, IsNameIndex};

use super::checked_file::name_of_fix;
use super::cursor::Cursor;
use super::file_index::Counts;
use super::fix_name::{FixName, NoSuchFix};
use arrayvec::ArrayVec;
use chart::limits::MAX_FIXES;
use chart::{Row, Table, TableRefusal};
use chart_format::ChartFault;

/// A reader of one chart file. It keeps the place that reading has come to, and, once the file is accepted, the places of the
/// records of its names; the legs are put into memory of the caller's.
#[derive(Debug, Drop)]
pub struct Reader<'a> {
    file: &'a [u8],
    cursor: Cursor,
    // The places of the records of the names; none before the file is accepted.
    starts: ArrayVec<usize, MAX_FIXES>,
    ghost of_bytes: { AreBytes file.now },
    ghost most: { array_vec_len starts ≤ max_fixes },
    ghost bodies: { HaveFixBodies file.now starts.items },
    ghost indexed: { IsNameIndex file.now starts.items },
    ghost names: { AreFixNames (names_at file.now starts.items) } by { fix_names_prop _ },
}

impl<'a> Reader<'a> {
    ghost use Rattle.chart.specs.Rows.{row_of_leg, table_outcome, IsTableOutcome};
    ghost use Rattle.chart.specs.Tables.{table_legs};
    ghost use Rattle.chart_format.specs.Format.{Means};
    ghost use Rattle.chart_format.specs.Reports.{chart_report};
    ghost use Rattle.chart_format.specs.Faults.{IsFaultOf, HasOneVerdict};
    ghost use Rattle.reader.specs.Readings.{file_of, reading_place, names_of, HasSameNames, Accepts};
    ghost use Rattle.reader.specs.Readings.{name_number, IsNameOfFix, NameRefused};

    /// A reader at the beginning of a file, which has accepted nothing yet and so has no names.
    #[tactic(auto, unfolding(crate::specs::Readings::names_of))]
    pub fn new(file: &'a [u8]) -> Reader<'a>
        ensures same_file { file_of result ≡ file.now }
        ensures at_its_beginning { reading_place result ≡ 0 }
        ensures without_names { names_of result ≡ [] }
    {
        Reader {
            file,
            cursor: Cursor { place: 0 },
            starts: ArrayVec::new(),
        }
    }

    /// The place that reading has come to, in bytes from the beginning of the file: after the end record once the file is
    /// accepted, and that of the fault where it was refused last.
    pub fn place(&self) -> usize
        ensures { result ≡ reading_place self.now }
    {
        self.cursor.place
    }

    /// Reads the file from its beginning, and puts its legs into the first places of memory. It answers how many fixes and legs
    /// the chart has; later places of memory hold what they held. A file that is no chart's, or of more legs than memory has
    /// places, is refused with its first fault (1 to 10); memory and the names that the reader had then stay what they were.
    #[tactic(auto, using(chart_format::proofs::OneVerdict::one_verdict))]
    pub fn read_file(&mut self, memory: &mut [Row]) -> Result<Counts, ChartFault>
        ensures same_file { file_of self.new ≡ file_of self.old }
        ensures reads_the_chart_or_tells_the_fault { MatchResult result
            (λ counts. Accepts (file_of self.old) (names_of self.new) counts memory.old memory.new
            × (reading_place self.new ≡ length (file_of self.old)))
            (λ e. IsFaultOf (file_of self.old) (length memory.old) (chart_report e)
            × (reading_place self.new ≡ (chart_report e).place)
            × HasSameNames self.old self.new
            × (memory.new ≡ memory.old)) }
        ensures one_verdict { HasOneVerdict (file_of self.old) (length memory.old) }
    {
        let mut starts = ArrayVec::new();
        let checked = self.cursor.read_file(self.file, memory, &mut starts)?;
        self.starts = starts;
        Ok(checked.counts)
    }

    /// The name of a fix of the accepted file, with its place there. It is refused (11) where the file has no fix of this number,
    /// or none is accepted yet.
    #[tactic(auto, unfolding(crate::specs::Readings::names_of))]
    pub fn name(&self, fix: u16) -> Result<FixName<'a>, NoSuchFix>
        ensures gives_the_name { MatchResult result
            (λ name. IsNameOfFix (file_of self.now) (names_of self.now) fix name)
            (λ e. NameRefused (names_of self.now) fix (name_number e)) }
        ensures names_are_good { AreFixNames (names_of self.now) }
    {
        name_of_fix(self.file, &self.starts, fix)
    }

    /// Has the table take its rows as the legs of the chart that the accepted file has, in which case it then has as many fixes
    /// as the file has names. The legs that the file put into memory are always taken. Other rows are refused as the table
    /// refuses them (4, or 8 or 7 of a row), and the table then stays what it was.
    pub fn take_legs(&self, table: &mut Table<'_>) -> Result<(), TableRefusal>
        ensures outcome { IsTableOutcome (length (names_of self.now)) table.old.rows.now (table_outcome result) }
        ensures same_rows { table.new.rows.now ≡ table.old.rows.now }
        ensures takes_exactly_its_rows { MatchResult result
            (λ _. (table.new.fixes ≡ length (names_of self.now))
            × (map row_of_leg (table_legs table.new) ≡ table.old.rows.now))
            (λ _. table.new ≡ table.old) }
        ensures takes_the_legs_of_the_file { Means (file_of self.now) (names_of self.now) table.old.rows.now
            → IsOk result }
    {
        table.take_rows(self.starts.len() as u16)
    }
}
