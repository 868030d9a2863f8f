// Calls that are made in one run, beside what is expected that they say.
use super::ledger::Ledger;
use chart::{Chart, QuickestTotal, Refusal};
use listing::{FILLER, Listing, are_untouched};
use plan::{Amendment, Draft, Filed, Status};
use runs::file_and_run::file_and_run;
use runs::run::run;
use runs::{Call, Reply, RunRefusal, RunRejected};
use std::alloc::{AllocError, Global};

// What a call of a plan says, with the number of a refusal in place of the refusal. A route call says the number of legs and the regret;
// what it puts into the memory is compared apart.
#[derive(Clone, Copy, PartialEq, Eq)]
enum Outcome {
    Amend(Result<u16, u8>),
    Route(Result<(usize, u32), u8>),
    Regret(Result<u32, u8>),
    Floor(Result<u32, u8>),
    Quickest(Result<(u32, usize), u8>),
    Level(Result<u16, u8>),
    Status(Status),
}

fn totals(total: QuickestTotal) -> (u32, usize) {
    (total.seconds, total.legs as usize)
}

impl Outcome {
    // What a reply says.
    fn of(reply: &Reply) -> Outcome {
        match *reply {
            Reply::Amend(answer) => Outcome::Amend(answer.map_err(|refusal| refusal.number())),
            Reply::Route(answer) => Outcome::Route(
                answer
                    .map(|found| (found.legs as usize, found.regret))
                    .map_err(|refusal| refusal.number()),
            ),
            Reply::Regret(answer) => Outcome::Regret(answer.map_err(|refusal| refusal.number())),
            Reply::Floor(answer) => Outcome::Floor(answer.map_err(|refusal| refusal.number())),
            Reply::Quickest(answer) => {
                Outcome::Quickest(answer.map(totals).map_err(|refusal| refusal.number()))
            }
            Reply::Level(answer) => Outcome::Level(answer.map_err(|refusal| refusal.number())),
            Reply::Status(status) => Outcome::Status(status),
        }
    }
}

const FILLER_REPLY: Reply = Reply::Level(Ok(FILLER));

// So many places are given beyond those that the calls take.
const BEYOND: usize = 3;

// The number of a refusal for want of places.
const FEW_PLACES: u8 = 15;

/// The calls, and what they are to say and to leave in the memory.
#[derive(Drop)]
pub struct Batch<'a> {
    alloc: Global,
    calls: Vec<Call<'a>>,
    expected: Vec<Outcome>,
    memory: Vec<u16>,
}

fn are_untouched_replies(replies: &[Reply]) -> bool {
    replies.iter().all(|reply| *reply == FILLER_REPLY)
}

impl<'a> Batch<'a> {
    /// No calls.
    pub fn new(alloc: Global) -> Batch<'a> {
        Batch {
            alloc,
            calls: Vec::new(alloc),
            expected: Vec::new(alloc),
            memory: Vec::new(alloc),
        }
    }

    fn push(&mut self, call: Call<'a>, expected: Outcome) -> Result<(), AllocError> {
        self.calls.push(call)?;
        self.expected.push(expected)?;
        Ok(())
    }

    /// Adds an amendment, and says what is expected of it: the new revision or the number of a refusal. What is granted is entered
    /// in the ledger.
    pub fn amend(
        &mut self,
        ledger: &mut Ledger,
        amendment: Amendment,
    ) -> Result<Result<u16, u8>, AllocError> {
        let expected = ledger.amend(&amendment)?;
        self.push(Call::Amend(amendment), Outcome::Amend(expected))?;
        Ok(expected)
    }

    /// Adds a status call.
    pub fn status(&mut self, ledger: &Ledger) -> Result<(), AllocError> {
        self.push(Call::Status, Outcome::Status(ledger.status()))
    }

    // What is expected of a route call, which the memory is to hold the list of.
    fn expected_route(
        &mut self,
        fixes: u16,
        listing: &Listing,
        places: usize,
    ) -> Result<Result<(usize, u32), u8>, AllocError> {
        if places.saturating_add(1) < fixes as usize {
            return Ok(Err(FEW_PLACES));
        }
        match listing.least_regret() {
            Ok(listed) => {
                self.memory.extend_from_slice(listed.list)?;
                Ok(Ok((listed.list.len(), listed.regret)))
            }
            Err(number) => Ok(Err(number)),
        }
    }

    /// Adds a route call that is given so many places, and says what is expected of it.
    pub fn route(
        &mut self,
        fixes: u16,
        listing: &Listing,
        places: usize,
    ) -> Result<Result<(usize, u32), u8>, AllocError> {
        let end = self.memory.len().saturating_add(places);
        let expected = self.expected_route(fixes, listing, places)?;
        self.memory.resize(end, FILLER)?;
        self.push(Call::Route { places }, Outcome::Route(expected))?;
        Ok(expected)
    }

    /// Adds the regret and the floor of a list.
    pub fn list(&mut self, listing: &Listing, list: &'a [u16]) -> Result<(), AllocError> {
        let floor = listing.floor(self.alloc, list)?;
        self.push(Call::Regret(list), Outcome::Regret(listing.regret(list)))?;
        self.push(Call::Floor(list), Outcome::Floor(floor))
    }

    /// Adds the quickest total and the level.
    pub fn best(&mut self, listing: &Listing) -> Result<(), AllocError> {
        let quickest = listing.quickest(self.alloc)?;
        self.push(Call::Quickest, Outcome::Quickest(quickest))?;
        self.push(Call::Level, Outcome::Level(listing.level()))
    }

    /// Adds all questions on the legs as they stand: routes with too few, just enough and more than enough places, the best totals,
    /// the regret and the floor of each list, and the status. It says whether there is a route.
    pub fn ask(&mut self, ledger: &Ledger, lists: &'a [Vec<u16>]) -> Result<bool, AllocError> {
        let listing = ledger.listing(self.alloc)?;
        let fixes = ledger.fixes();
        let enough = (fixes as usize).saturating_sub(1);
        for places in [enough.saturating_sub(1), enough, enough.saturating_add(6)] {
            let _expected = self.route(fixes, &listing, places)?;
        }
        self.best(&listing)?;
        for list in lists {
            self.list(&listing, list)?;
        }
        self.status(ledger)?;
        Ok(listing.least_regret().is_ok())
    }

    // Whether these replies are those expected, and filler beyond them.
    fn are_as_expected(&self, replies: &[Reply]) -> Result<bool, AllocError> {
        let Some((made, beyond)) = replies.split_at_checked(self.expected.len()) else {
            return Ok(false);
        };
        let outcomes: Vec<Outcome> = made
            .iter()
            .map(|reply| Outcome::of(reply))
            .collect(self.alloc)?;
        Ok(outcomes == self.expected && are_untouched_replies(beyond))
    }

    // Whether the memory holds what is expected, and filler beyond it.
    fn holds_expected(&self, memory: &[u16]) -> bool {
        memory
            .strip_prefix(self.memory.as_slice())
            .is_some_and(|beyond| are_untouched(beyond))
    }

    // Whether a run with so many replies and places is refused for this, and leaves both as they were.
    fn is_refused<C: Chart>(
        &self,
        plan: &mut Filed<C>,
        replies: usize,
        places: usize,
        refusal: RunRefusal,
    ) -> Result<bool, AllocError> {
        let mut replies = vec![in self.alloc; FILLER_REPLY; replies]?;
        let mut memory = vec![in self.alloc; FILLER; places]?;
        let answer = run(plan, &self.calls, &mut replies, &mut memory);
        Ok(answer == Err(refusal) && are_untouched_replies(&replies) && are_untouched(&memory))
    }

    /// Whether the run is refused with one reply too few, and with one place too few where a call takes any.
    pub fn is_refused_short<C: Chart>(&self, plan: &mut Filed<C>) -> Result<bool, AllocError> {
        let replies = self.calls.len();
        let places = self.memory.len();
        let few = replies.saturating_sub(1);
        let short = places.saturating_sub(1);
        Ok(
            self.is_refused(plan, few, places, RunRefusal::FewReplies)?
                && (places == 0 || self.is_refused(plan, replies, short, RunRefusal::ShortMemory)?),
        )
    }

    // Whether replies and memory are what is expected, and filler beyond it.
    fn is_as_expected(&self, replies: &[Reply], memory: &[u16]) -> Result<bool, AllocError> {
        Ok(self.are_as_expected(replies)? && self.holds_expected(memory))
    }

    // More replies than the calls take, and more places, all filled.
    fn filled(&self) -> Result<(Vec<Reply>, Vec<u16>), AllocError> {
        let replies = self.calls.len().saturating_add(BEYOND);
        let places = self.memory.len().saturating_add(BEYOND);
        Ok((
            vec![in self.alloc; FILLER_REPLY; replies]?,
            vec![in self.alloc; FILLER; places]?,
        ))
    }

    /// Whether the run replies and writes what is expected.
    pub fn answers_as_expected<C: Chart>(&self, plan: &mut Filed<C>) -> Result<bool, AllocError> {
        let (mut replies, mut memory) = self.filled()?;
        let answer = run(plan, &self.calls, &mut replies, &mut memory);
        Ok(answer.is_ok() && self.is_as_expected(&replies, &memory)?)
    }

    // The draft as it comes back where it is not filed for want of a reply; none where replies and places are not left as they were.
    fn given_back<C: Chart + Drop>(&self, draft: Draft<C>) -> Result<Option<Draft<C>>, AllocError> {
        let few = self.calls.len().saturating_sub(1);
        let mut replies = vec![in self.alloc; FILLER_REPLY; few]?;
        let mut memory = vec![in self.alloc; FILLER; self.memory.len()]?;
        match file_and_run(draft, &self.calls, &mut replies, &mut memory) {
            Err(RunRejected { draft, refusal }) => {
                let is_left = are_untouched_replies(&replies) && are_untouched(&memory);
                Ok((refusal == RunRefusal::FewReplies && is_left).then_some(draft))
            }
            Ok(_) => Ok(None),
        }
    }

    /// Files a draft and makes the calls at once, after it came back once. The plan; none where it did not answer what is expected.
    pub fn filed<C: Chart + Drop>(&self, draft: Draft<C>) -> Result<Option<Filed<C>>, AllocError> {
        let Some(draft) = self.given_back(draft)? else {
            return Ok(None);
        };
        let (mut replies, mut memory) = self.filled()?;
        match file_and_run(draft, &self.calls, &mut replies, &mut memory) {
            Ok(plan) => Ok(self.is_as_expected(&replies, &memory)?.then_some(plan)),
            Err(_) => Ok(None),
        }
    }
}
