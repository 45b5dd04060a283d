// Delay in half lines of video, since interlaced suppliers declare half lines. A converter that reads ahead gives lines back, so a
// delay has a sign.
ghost use Rattle.costs.specs.Delay.{delay};
ghost use Rattle.costs.specs.DelayLaws.{delay_lawful, delay_strict};

use crate::{Cost, StrictCost};

// A card's delay is at most so many half lines from 0: a million lines.
const MOST_HALF_LINES: i32 = 2_000_000;

// So many half lines; the smaller delay undercuts.
#[repr(C)]
#[derive(Clone, Copy, Debug, PartialEq, Eq)]
pub struct Delay {
    pub half_lines: i32,
}

impl Cost for Delay {
    ghost algebra = { delay };

    ghost value = { λ d. d.half_lines };

    ghost lawful = { delay_lawful };

    fn unit() -> Delay {
        Delay { half_lines: 0 }
    }

    // Beyond what 32 bits hold, where any cost will do, the sum wraps: a test for it took a third of the instructions of a route.
    fn join(self, other: Delay) -> Delay {
        Delay {
            half_lines: self.half_lines.wrapping_add(other.half_lines),
        }
    }

    fn undercuts(self, other: Delay) -> bool {
        self.half_lines < other.half_lines
    }

    fn admitted(self) -> bool {
        (-MOST_HALF_LINES..=MOST_HALF_LINES).contains(&self.half_lines)
    }
}

impl StrictCost for Delay {
    ghost order = { delay };

    ghost place = { λ d. d.half_lines };

    ghost ordered = { delay_lawful };

    ghost strict = { delay_strict };

    fn precedes(self, other: Delay) -> bool {
        self.undercuts(other)
    }
}
