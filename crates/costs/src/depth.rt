// Depth in bits kept of a sample. A chain keeps as many as the card of it that keeps fewest.
ghost use Rattle.costs.specs.Depth.{depth, bits};
ghost use Rattle.costs.specs.DepthLaws.{depth_lawful};

use crate::Cost;

// A card keeps at most so many bits, and at least one.
const MOST_BITS: u8 = 16;

// So many bits of a sample; the larger depth undercuts.
#[repr(C)]
#[derive(Clone, Copy, Debug, PartialEq, Eq)]
pub struct Depth {
    pub bits: u8,
}

impl Cost for Depth {
    ghost algebra = { depth };

    ghost value = { λ d. bits d.bits };

    ghost lawful = { depth_lawful };

    fn unit() -> Depth {
        Depth { bits: u8::MAX }
    }

    fn join(self, other: Depth) -> Depth {
        Depth {
            bits: self.bits.min(other.bits),
        }
    }

    fn undercuts(self, other: Depth) -> bool {
        self.bits > other.bits
    }

    fn admitted(self) -> bool {
        (1..=MOST_BITS).contains(&self.bits)
    }
}
