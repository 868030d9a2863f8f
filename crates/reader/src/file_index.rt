// An index of an accepted file: the file itself, owned, and where its names stand in it.
ghost use Rattle.std.specs.Prelude.{◌≡◌, ◌≤◌, map, length, IsOk, MatchResult};
ghost use Rattle.chart.specs.Limits.{max_fixes};
ghost use Rattle.chart_format.specs.Format.{AreFixNames};
ghost use Rattle.chart_format.specs.laws.Names.{fix_names_prop};
ghost use Rattle.arrayvec.specs.ArrayVec.{array_vec_len};
ghost use Rattle.reader.specs.Files.{names_at, IsFileOfChart};
ghost use Rattle.reader.specs.internal.RecordPlaces.{HaveFixBodies, IsNameIndex};

use super::checked_file::name_of_fix;
use super::cursor::Cursor;
use super::fix_name::{FixName, NoSuchFix};
use arrayvec::ArrayVec;
use chart::limits::MAX_FIXES;
use chart::{Row, Table, TableRefusal};
use chart_format::ChartFault;

/// How many fixes and legs a chart has.
#[derive(Clone, Copy, Debug, PartialEq, Eq)]
pub struct Counts {
    /// The number of fixes.
    pub fixes: u16,
    /// The number of legs.
    pub legs: u16,
}

/// An accepted file, owned, with the places of its names: it stands beside a chart whose legs were copied out of memory, and is
/// asked for the names without reading the file again.
#[derive(Debug, Drop)]
pub struct FileIndex {
    file: Vec<u8>,
    counts: Counts,
    // The places of the records of the names.
    starts: ArrayVec<usize, MAX_FIXES>,
    ghost most: { array_vec_len starts ≤ max_fixes },
    ghost bodies: { HaveFixBodies file.items starts.items },
    ghost indexed: { IsNameIndex file.items starts.items },
    ghost counted: { counts.fixes ≡ length starts.items },
    ghost names: { AreFixNames (names_at file.items starts.items) } by { fix_names_prop _ },
    ghost chart: { ∥ IsFileOfChart file.items (names_at file.items starts.items) counts ∥₁ },
}

impl FileIndex {
    ghost use Rattle.chart.specs.Rows.{row_of_leg, table_outcome, IsTableOutcome};
    ghost use Rattle.chart.specs.Tables.{table_legs};
    ghost use Rattle.chart_format.specs.Format.{Means};
    ghost use Rattle.chart_format.specs.Reports.{chart_report};
    ghost use Rattle.chart_format.specs.Faults.{IsFaultOf, HasOneVerdict};
    ghost use Rattle.reader.specs.Readings.{indexed_file, indexed_names, indexed_counts, name_number, Accepts};
    ghost use Rattle.reader.specs.Readings.{IsNameOfFix, NameRefused};

    /// Reads a file, keeps it, and puts its legs into the first places of memory; later places of memory hold what they held. A
    /// file that is no chart's, or of more legs than memory has places, is refused with its first fault (1 to 10) as a `Reader`
    /// refuses it; memory then stays what it was, and the bytes are dropped.
    #[tactic(auto, using(chart_format::proofs::OneVerdict::one_verdict))]
    pub fn read(file: Vec<u8>, memory: &mut [Row]) -> Result<FileIndex, ChartFault>
        ensures reads_the_chart_or_tells_the_fault { MatchResult result
            (λ index. (indexed_file index ≡ file.items)
            × Accepts file.items (indexed_names index) (indexed_counts index) memory.old memory.new)
            (λ e. IsFaultOf file.items (length memory.old) (chart_report e) × (memory.new ≡ memory.old)) }
        ensures one_verdict { HasOneVerdict file.items (length memory.old) }
    {
        let mut cursor = Cursor { place: 0 };
        let mut starts = ArrayVec::new();
        let checked = cursor.read_file(file.as_slice(), memory, &mut starts)?;
        Ok(FileIndex {
            file,
            counts: checked.counts,
            starts,
        })
    }

    /// How many fixes and legs the chart of the file has.
    pub fn counts(&self) -> Counts
        ensures value { result ≡ indexed_counts self.now }
        ensures of_its_chart { ∥ IsFileOfChart (indexed_file self.now) (indexed_names self.now) result ∥₁ }
    {
        self.counts
    }

    /// The name of a fix of the file, with its place there. It is refused (11) where the file has no fix of this number.
    pub fn name(&self, fix: u16) -> Result<FixName<'_>, NoSuchFix>
        ensures gives_the_name { MatchResult result
            (λ name. IsNameOfFix (indexed_file self.now) (indexed_names self.now) fix name)
            (λ e. NameRefused (indexed_names self.now) fix (name_number e)) }
        ensures names_are_good { AreFixNames (indexed_names self.now) }
    {
        name_of_fix(self.file.as_slice(), &self.starts, fix)
    }

    /// Has the table take its rows as the legs of the file's chart, in which case it then has as many fixes as the file has names.
    /// The legs that the file put into memory are always taken. Other rows are refused as the table refuses them (4, or 8 or 7 of
    /// a row), and the table then stays what it was.
    pub fn take_legs(&self, table: &mut Table<'_>) -> Result<(), TableRefusal>
        ensures outcome { IsTableOutcome (length (indexed_names self.now)) table.old.rows.now (table_outcome result) }
        ensures same_rows { table.new.rows.now ≡ table.old.rows.now }
        ensures takes_exactly_its_rows { MatchResult result
            (λ _. (table.new.fixes ≡ length (indexed_names self.now))
            × (map row_of_leg (table_legs table.new) ≡ table.old.rows.now))
            (λ _. table.new ≡ table.old) }
        ensures takes_the_legs_of_the_file { Means (indexed_file self.now) (indexed_names self.now) table.old.rows.now
            → IsOk result }
    {
        table.take_rows(self.counts.fixes)
    }
}
