// A delay and a depth as they cross to a host in C.
ghost use Rattle.costs.specs.Delay.{delay};
ghost use Rattle.costs.specs.DelayLaws.{delay_lawful, delay_strict};
ghost use Rattle.costs.specs.Depth.{depth, bits};
ghost use Rattle.costs.specs.DepthLaws.{depth_lawful};
ghost use Rattle.costs.specs.Pair.{pair};
ghost use Rattle.costs.specs.PairLaws.{pair_lawful};

use costs::{Cost, Delay, Depth, Pair};

// A pair of the two. No struct with type parameters may cross, so it is one of its own, and is as the pair is.
#[repr(C)]
#[derive(Clone, Copy)]
pub struct Both {
    pub delay: Delay,
    pub depth: Depth,
}

impl Both {
    ghost use Rattle.std.specs.Prelude.{◌≡◌};
    ghost use Rattle.hurzelma.specs.Both.{both_of, pair_of};

    fn of(pair: Pair<Delay, Depth>) -> Both
        ensures { result ≡ both_of pair }
    {
        Both {
            delay: pair.first,
            depth: pair.second,
        }
    }

    fn pair(self) -> Pair<Delay, Depth>
        ensures { result ≡ pair_of self }
    {
        Pair {
            first: self.delay,
            second: self.depth,
        }
    }
}

impl Cost for Both {
    ghost algebra = { pair delay depth };

    ghost value = { λ b. (b.delay.half_lines, bits b.depth.bits) };

    ghost lawful = { pair_lawful delay_lawful depth_lawful delay_strict };

    fn unit() -> Both {
        Both::of(Pair::unit())
    }

    fn join(self, other: Both) -> Both {
        Both::of(self.pair().join(other.pair()))
    }

    fn undercuts(self, other: Both) -> bool {
        self.pair().undercuts(other.pair())
    }

    fn admitted(self) -> bool {
        self.pair().admitted()
    }
}
