// The chart that plans are drafted on, and the names of its fixes if it is a file's.
ghost use Rattle.std.specs.Prelude.{MatchResult};
ghost use Rattle.console.specs.Sessions.{current_model};
ghost use Rattle.console.specs.Steps.{IsChartOfFile, IsOwedToFile, IsChartOfLattice, IsOwedToLattice};
ghost use Rattle.console.specs.Steps.{AreCountsOf, IsNameOn};

use arrayvec::ArrayString;
use chart::limits::MAX_LEGS;
use chart::{Chart, Lattice, Row, Standing, Table};
use protocol::{Answer, AnyRefusal, LatticeRequest, Rejection};
use reader::{Counts, FileIndex};
use search::Snapshot;
use std::str;

// The chart that plans are drafted on: a copy of it, and the index of its file if it has one. A plan is drafted on a further copy: a
// table borrows its rows, and a plan is to outlive the file that they came from.
#[derive(Drop)]
pub(crate) struct CurrentChart {
    pub(crate) chart: Snapshot,
    pub(crate) index: Option<FileIndex>,
}

// What stands in a place for a row that nothing was read into.
const BLANK: Row = Row {
    from: 0,
    to: 0,
    low: 0,
    high: 0,
    top: 0,
    standing: Standing::Closed,
};

impl CurrentChart {
    // The chart of a file, unless it has a fault.
    pub(crate) fn of_file<'a>(file: Vec<u8>) -> Result<CurrentChart, Rejection<'a>>
        ensures { MatchResult result
            (λ current. IsChartOfFile file.items (current_model current))
            (IsOwedToFile file.items) }
    {
        let mut rows = [BLANK; MAX_LEGS];
        let index = FileIndex::read(file, &mut rows)?;
        let mut table = Table::new(&rows[..index.counts().legs as usize]);
        index.take_legs(&mut table).unwrap();
        Ok(CurrentChart {
            chart: Snapshot::of(&table),
            index: Some(index),
        })
    }

    // The lattice that is asked for, unless it is refused.
    pub(crate) fn of_lattice<'a>(request: &LatticeRequest) -> Result<CurrentChart, Rejection<'a>>
        ensures { MatchResult result
            (λ current. IsChartOfLattice request.now (current_model current))
            (IsOwedToLattice request.now) }
    {
        let steps = request.steps.as_slice();
        let lattice = Lattice::new(request.rows, request.columns, request.top, steps).map_err(
            AnyRefusal::Lattice,
        )?;
        Ok(CurrentChart {
            chart: Snapshot::of(&lattice),
            index: None,
        })
    }

    pub(crate) fn counts(&self) -> Counts
        ensures { AreCountsOf (current_model self.now).chart result }
    {
        Counts {
            fixes: self.chart.n(),
            legs: self.chart.m(),
        }
    }

    // The name of a fix, which only a file has.
    pub(crate) fn name<'a>(&self, fix: u16) -> Result<Answer, Rejection<'a>>
        ensures { IsNameOn (current_model self.now).names fix result }
    {
        let Some(index) = &self.index else {
            return Err(Rejection::WrongState);
        };
        let name = index.name(fix).map_err(AnyRefusal::Name)?;
        // A name is of letters and digits, and fits.
        let text = str::from_utf8(name.text).unwrap();
        Ok(Answer::Name {
            text: ArrayString::from(text).unwrap(),
            place: name.place,
        })
    }
}
