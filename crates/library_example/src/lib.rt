// The library in use: the chart of a file is read, a plan is filed on it and amended, and its route is asked for.
#![tactic(auto)]

ghost use Rattle.std.specs.Prelude.{◌≡◌};
ghost use Rattle.library_example.specs.Answers.{IsAnswerAfter};
ghost use Rattle.library_example.specs.declared.NoAnswer.TheVariants.{File, Amendment as NotAmended};
ghost use Rattle.library_example.specs.declared.NoAnswer.TheVariants.{Route as NotRouted};

use chart::limits::MAX_LEGS;
use chart::{Row, Standing, Table};
use chart_format::ChartFault;
use least::{FoundRoute, RouteRefusal};
use plan::{AmendRefusal, Amendment, Draft};
use reader::Reader;

/// Why no route is answered.
#[derive(Clone, Copy, Debug, PartialEq, Eq)]
pub enum NoAnswer {
    /// The file is no chart's: its fault.
    File(ChartFault),
    /// The plan is not amended.
    Amendment(AmendRefusal),
    /// The memory is too short for a route, or there is none.
    Route(RouteRefusal),
}

impl From<ChartFault> for NoAnswer {
    ghost from_gives = { λ fault answer. answer ≡ File fault };

    fn from(fault: ChartFault) -> NoAnswer {
        NoAnswer::File(fault)
    }
}

impl From<AmendRefusal> for NoAnswer {
    ghost from_gives = { λ refusal answer. answer ≡ NotAmended refusal };

    fn from(refusal: AmendRefusal) -> NoAnswer {
        NoAnswer::Amendment(refusal)
    }
}

impl From<RouteRefusal> for NoAnswer {
    ghost from_gives = { λ refusal answer. answer ≡ NotRouted refusal };

    fn from(refusal: RouteRefusal) -> NoAnswer {
        NoAnswer::Route(refusal)
    }
}

// What stands in leg memory before a file is read.
const BLANK: Row = Row {
    from: 0,
    to: 0,
    low: 0,
    high: 0,
    top: 0,
    standing: Standing::Closed,
};

/// The route of least regret from the first fix to the last of a file's chart, once a plan that is filed on it is amended. The numbers
/// of its legs are put into the first places of the memory, which is to have one place fewer than the chart has fixes; later places
/// keep what they held. Where the file is no chart's, or the amendment or the route is refused, the answer is why, and the memory holds
/// what it held.
pub fn route_after(
    file: &[u8],
    amendment: Amendment,
    memory: &mut [u16],
) -> Result<FoundRoute, NoAnswer>
    ensures { IsAnswerAfter file.now amendment memory.old result memory.new }
{
    let mut rows = [BLANK; MAX_LEGS];
    let mut reader = Reader::new(file);
    let counts = reader.read_file(&mut rows)?;
    let mut table = Table::new(&rows[..counts.legs as usize]);
    reader.take_legs(&mut table).unwrap();
    let mut plan = Draft::new(table).file();
    plan.amend(amendment)?;
    Ok(plan.route(memory)?)
}
