// Laws of a bay: of runs whose calls are given one by one, and of routes from the output side.
ghost use Rattle.bay.specs.Reversal.{FromOutputs, ReversedIsReversal};
ghost use Rattle.bay.specs.Runs.{OneByOne};

use costs::Cost;

// Does nothing; its contract is the law of any calls made one after the other on a bay, a new one or one in use.
pub fn one_by_one<C: Cost>()
    ensures { OneByOne C.Cost }
{}

// Does nothing; its contract is the law of a route from the output side: one over cards that are turned round.
pub fn from_outputs<C: Cost>()
    ensures reversed { ReversedIsReversal C.Cost }
    ensures outputs { FromOutputs C.Cost }
{}
