// A plan that is closed, and the status that is left of it.
ghost use Rattle.std.specs.Prelude.{◌≡◌};

use chart::Ends;
use std::marker::PhantomData;

/// What a plan answers of itself.
#[derive(Clone, Copy, Debug, PartialEq, Eq)]
pub struct Status {
    /// The revision: 0 at filing, and one more with each amendment that is granted.
    pub revision: u16,
    /// How many legs stand amended.
    pub amended: u16,
    /// The two fixes between which its routes are wanted.
    pub ends: Ends,
}

/// A plan on a chart of the type `C` that is closed. Only its status is left: its chart was given back. It has no call that routes
/// or amends, and like the other states of a plan it is moved and not copied.
#[derive(Drop)]
pub struct Closed<C> {
    pub(crate) status: Status,
    pub(crate) of: PhantomData<C>,
}

impl<C> Closed<C> {
    ghost use Rattle.plan.specs.Plans.{status_at_close};

    /// The status that the plan had when it was closed. It is never refused.
    pub fn status(&self) -> Status
        ensures { result ≡ status_at_close self.now }
    {
        self.status
    }
}
