// A chart over rows in the caller's memory, and how it takes them.
ghost use Rattle.std.specs.Prelude.{◌≡◌, ℕ, ◌<◌, ◌≤◌, length, MatchResult, ◌≢◌};
ghost use Rattle.chart.specs.Refusals.{row_number, table_number};
ghost use Rattle.chart.specs.Limits.{min_fixes, max_fixes, max_legs, max_seconds, max_level};
ghost use Rattle.chart.specs.Rows.{row_at, HasValidCounts, FirstRowRefused, TableRefused, AreValidRows};

use super::Chart;
use super::leg::Leg;
use super::limits::{MIN_FIXES, are_valid_counts};
use super::refusals::{RowRefusal, TableRefusal};
use super::row::Row;

/// A chart whose legs are rows in the caller's memory: the first `count` of `rows`, each of which
/// is a leg of a chart with `fixes` fixes. The number stands beside the rows since a table keeps
/// rows that it has not taken: with the rows alone there would be no table over rows that has none
/// of them.
#[derive(Clone, Copy)]
pub struct Table<'a> {
    /// The number of fixes.
    pub fixes: u16,
    /// The number of legs.
    pub count: u16,
    /// The rows: first those that are legs, then those that the table has not taken.
    pub rows: &'a [Row],
    ghost least: { min_fixes ≤ fixes },
    ghost most: { fixes ≤ max_fixes },
    ghost few: { count ≤ max_legs },
    ghost there: { count ≤ length rows.now },
    ghost ordered: { (k : ℕ) → k < count → (row_at rows.now k).low ≤ (row_at rows.now k).high },
    ghost bounded: { (k : ℕ) → k < count → (row_at rows.now k).high ≤ max_seconds },
    ghost level: { (k : ℕ) → k < count → (row_at rows.now k).top ≤ max_level },
    ghost leaves: { (k : ℕ) → k < count → (row_at rows.now k).from < fixes },
    ghost enters: { (k : ℕ) → k < count → (row_at rows.now k).to < fixes },
    ghost apart: { (k : ℕ) → k < count → (row_at rows.now k).from ≢ (row_at rows.now k).to },
}

// Checks the rows in their order.
fn check_each(n: u16, rows: &[Row]) -> Result<(), RowRefusal>
    ensures { MatchResult result
        (λ _. AreValidRows n rows.now (length rows.now))
        (λ e. FirstRowRefused n rows.now (row_number e)) }
{
    for row in rows {
        let _leg = row.leg(n)?;
    }
    Ok(())
}

// Checks the counts, then the rows, and counts these.
fn checked(n: u16, rows: &[Row]) -> Result<u16, TableRefusal>
    ensures { MatchResult result
        (λ m. (m ≡ length rows.now) × HasValidCounts n m × AreValidRows n rows.now m)
        (λ e. TableRefused n rows.now (table_number e)) }
{
    if !are_valid_counts(n, rows.len()) {
        return Err(TableRefusal::BadCounts);
    }
    check_each(n, rows)?;
    Ok(rows.len() as u16)
}

impl<'a> Table<'a> {
    ghost use Rattle.std.specs.Prelude.{[], map, IfOk};
    ghost use Rattle.chart.specs.Rows.{row_of_leg, table_outcome, IsTableOutcome};
    ghost use Rattle.chart.specs.Tables.{table_legs};

    /// A table over these rows that has taken none of them yet: two fixes and no legs.
    pub fn new(rows: &'a [Row]) -> Table<'a>
        ensures keeps_rows { result.rows.now ≡ rows.now }
        ensures empty { (result.fixes ≡ min_fixes) × (table_legs result ≡ []) }
    {
        Table {
            fixes: MIN_FIXES as u16,
            count: 0,
            rows,
        }
    }

    /// The table of a chart with `n` fixes that has every row for a leg. It is refused as
    /// `take_rows` is.
    pub fn of(n: u16, rows: &'a [Row]) -> Result<Table<'a>, TableRefusal>
        ensures outcome { IsTableOutcome n rows.now (table_outcome result) }
        ensures has_exactly_its_rows { IfOk result
            (λ t. (t.rows.now ≡ rows.now) × (t.fixes ≡ n) × (map row_of_leg (table_legs t) ≡ rows.now)) }
    {
        let mut table = Table::new(rows);
        table.take_rows(n)?;
        Ok(table)
    }

    /// Takes every row as a leg of a chart with `n` fixes. It is refused as `BadCounts` (4) where
    /// `n` is not from 2 to 200 or there are more than 1,000 rows; else as `BadRow` with the
    /// refusal of the first row that is no leg of the chart (8 or 7). What is refused leaves the
    /// table as it was.
    pub fn take_rows(&mut self, n: u16) -> Result<(), TableRefusal>
        ensures outcome { IsTableOutcome n self.old.rows.now (table_outcome result) }
        ensures keeps_rows { self.new.rows.now ≡ self.old.rows.now }
        ensures takes_exactly_its_rows { MatchResult result
            (λ _. (self.new.fixes ≡ n) × (map row_of_leg (table_legs self.new) ≡ self.old.rows.now))
            (λ _. self.new ≡ self.old) }
    {
        let rows = self.rows;
        let count = checked(n, rows)?;
        *self = Table {
            fixes: n,
            count,
            rows,
        };
        Ok(())
    }
}

impl Chart for Table<'_> {
    ghost use Rattle.chart.specs.Tables.{table_legs};
    ghost use Rattle.chart.specs.laws.Tables.{table_is_chart};

    ghost fixes = { λ t. t.fixes };

    ghost legs = { table_legs };

    ghost is_chart = { table_is_chart };

    fn n(&self) -> u16 {
        self.fixes
    }

    fn m(&self) -> u16 {
        self.count
    }

    // The number is tested, and not looked up by `get` alone, since rows that are not taken are no
    // legs.
    fn leg(&self, k: u16) -> Option<Leg> {
        if k >= self.count {
            return None;
        }
        Some(self.rows[k as usize].as_leg())
    }
}
