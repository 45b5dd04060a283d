// The register of the output side: every card turned round.
ghost use Rattle.std.specs.Prelude.{◌≡◌, true, false};
ghost use Rattle.registers.specs.View.{pair_below};

use crate::Format;
use crate::over::{Over, View};

// Every card is turned round: what stands from one format to another is what stands below from the other to the one.
#[derive(Clone, Copy, Debug, PartialEq, Eq)]
pub struct Turned;

// A register seen from the output side.
pub type Reversed<R> = Over<R, Turned>;

impl View for Turned {
    ghost shuts = { λ _ a b. false };

    ghost turned = { λ _. true };

    fn shuts(&self, _from: Format, _to: Format) -> bool {
        false
    }

    fn pair_below(&self, from: Format, to: Format) -> (Format, Format) {
        (to, from)
    }
}
