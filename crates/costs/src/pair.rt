// Two costs in one: the first decides, and the second where the first ones are equal.
ghost use Rattle.costs.specs.Pair.{pair};
ghost use Rattle.costs.specs.PairLaws.{pair_lawful};

use crate::{Cost, StrictCost};

// A cost of two kinds. They combine part by part. The first kind has to be strict: of two depths, for example, (4, 2) does not
// undercut (8, 1), and would once both are combined with (4, 16), where the second parts decide.
#[derive(Clone, Copy, Debug, PartialEq, Eq)]
pub struct Pair<A, B> {
    pub first: A,
    pub second: B,
}

impl<A: StrictCost, B: Cost> Cost for Pair<A, B> {
    ghost algebra = { pair A.Cost.algebra B.algebra };

    ghost value = { λ p. (A.Cost.value p.first, B.value p.second) };

    ghost lawful = { pair_lawful A.Cost.lawful B.lawful A.strict };

    fn unit() -> Pair<A, B> {
        Pair {
            first: A::unit(),
            second: B::unit(),
        }
    }

    fn join(self, other: Pair<A, B>) -> Pair<A, B> {
        Pair {
            first: self.first.join(other.first),
            second: self.second.join(other.second),
        }
    }

    fn undercuts(self, other: Pair<A, B>) -> bool {
        self.first.precedes(other.first)
            || !other.first.precedes(self.first) && self.second.undercuts(other.second)
    }

    fn admitted(self) -> bool {
        self.first.admitted() && self.second.admitted()
    }
}
