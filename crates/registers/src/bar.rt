// A bar over a register: formats that are out of use.
ghost use Rattle.std.specs.Prelude.{◌≡◌, false};
ghost use Rattle.registers.specs.Bar.{bars, touches};
ghost use Rattle.registers.specs.View.{pair_below};

use crate::Format;
use crate::over::{Over, View};

// The formats that are out of use: bit f bars the format f. A pair that touches a barred format has no card and is sealed;
// everything else is as in the register below.
#[derive(Clone, Copy, Debug, PartialEq, Eq)]
pub struct Bars {
    pub bits: u64,
}

// A register with some formats out of use. Bars can be piled.
pub type Bar<R> = Over<R, Bars>;

// Whether a bit is set, which none beyond the highest is.
fn has_bit(bits: u64, place: usize) -> bool
    ensures { result ≡ bars bits place }
{
    place < u64::BITS as usize && (bits >> place) & 1 == 1
}

impl View for Bars {
    ghost shuts = { λ b. touches b.bits };

    ghost turned = { λ _. false };

    fn shuts(&self, from: Format, to: Format) -> bool {
        has_bit(self.bits, from) || has_bit(self.bits, to)
    }

    fn pair_below(&self, from: Format, to: Format) -> (Format, Format) {
        (from, to)
    }
}
