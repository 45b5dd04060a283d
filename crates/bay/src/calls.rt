// The calls of a bay as values, and their answers.
ghost use Rattle.std.specs.Prelude.{◌≡◌, MatchResult};
ghost use Rattle.bay.specs.declared.calls.Answer.TheVariants.{Refused};

use crate::fault::BayFault;
use crate::legs::{Leg, MOST_LEGS};
use crate::rows::ROW;
use registers::Format;

// So many bytes have the rows of all the legs that a bay may have.
pub const CHAIN_BYTES: usize = ROW * MOST_LEGS;

// A call with its arguments, as data: a host hands in a list of them and may keep it, so it is no closure. `Route` and `Fork` work in
// the table and the sheets that are handed in with them.
#[derive(Clone, Copy, Debug, PartialEq, Eq)]
pub enum Call<C> {
    Enter {
        from: Format,
        to: Format,
        cost: C,
    },
    Withdraw {
        from: Format,
        to: Format,
    },
    Book {
        from: Format,
        to: Format,
    },
    Strike {
        leg: usize,
    },
    Show {
        leg: usize,
    },
    Route,
    Fork {
        input: Format,
        first: Format,
        second: Format,
    },
}

// What came of a call. What a route or a fork found stands in the sheets that it was lent: the costs and rows of so many legs, the total
// and the rows of a split, or a loop in row 0.
#[derive(Clone, Copy, Debug, PartialEq, Eq)]
pub enum Answer {
    Entered,
    Withdrawn,
    Booked(usize),
    Struck,
    Shown(Leg),
    Routed(usize),
    // The format of the cheapest split.
    Forked(Format),
    // A closed walk undercuts the unit.
    Looped,
    Refused(BayFault),
}

impl<C> Call<C> {
    ghost use Rattle.bay.specs.Runs.{takes_part};

    // Whether the call works in the table and the sheets.
    pub fn takes_part(&self) -> bool
        ensures { result ≡ takes_part self.now }
    {
        matches!(self, Call::Route | Call::Fork { .. })
    }
}

impl Answer {
    ghost use Rattle.bay.specs.Calls.{of_fault, of_fork, of_route};

    // The answer to a call that, where it is granted, is answered so.
    pub(crate) fn of_done(done: Result<(), BayFault>, granted: Answer) -> Answer
        ensures { MatchResult done (λ _. result ≡ granted) (λ fault. result ≡ Refused fault) }
    {
        match done {
            Ok(()) => granted,
            Err(fault) => Answer::Refused(fault),
        }
    }

    // The answer to a route or a fork that is refused: a loop is told as one.
    fn of_fault(fault: BayFault) -> Answer
        ensures { result ≡ of_fault fault }
    {
        match fault {
            BayFault::Loop => Answer::Looped,
            fault => Answer::Refused(fault),
        }
    }

    // The answer that tells what a route answered.
    pub(crate) fn of_route(routed: Result<usize, BayFault>) -> Answer
        ensures { result ≡ of_route routed }
    {
        match routed {
            Ok(legs) => Answer::Routed(legs),
            Err(fault) => Answer::of_fault(fault),
        }
    }

    // The answer that tells what a fork answered.
    pub(crate) fn of_fork(forked: Result<Format, BayFault>) -> Answer
        ensures { result ≡ of_fork forked }
    {
        match forked {
            Ok(split) => Answer::Forked(split),
            Err(fault) => Answer::of_fault(fault),
        }
    }
}
