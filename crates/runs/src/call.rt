// What is asked of a filed plan in a run.
ghost use Rattle.std.specs.Prelude.{◌≡◌};
ghost use Rattle.runs.specs.Histories.{call_places};

use plan::Amendment;

/// One call of a filed plan, by the question that it asks. What each answers, and when it is refused, the method of its name of
/// the plan says.
#[derive(Clone, Copy)]
pub enum Call<'a> {
    /// Amends one leg.
    Amend(Amendment),
    /// Asks for the route of least regret.
    Route {
        /// How many places of the memory the call is given.
        places: usize,
    },
    /// Asks for the regret of a list of legs.
    Regret(&'a [u16]),
    /// Asks for the floor of a chain.
    Floor(&'a [u16]),
    /// Asks for the quickest total.
    Quickest,
    /// Asks for the best level.
    Level,
    /// Asks for the status.
    Status,
}

impl Call<'_> {
    /// How many places of the memory the call takes: a route call as many as it says, and every other call none.
    pub fn places(&self) -> usize
        ensures { result ≡ call_places self.now }
    {
        match *self {
            Call::Route { places } => places,
            _ => 0,
        }
    }
}
