// Why a table is refused.
ghost use Rattle.std.specs.Prelude.{◌≡◌};
ghost use Rattle.tables.specs.Faults.{table_code};

use crate::numbers::PLACES;
use registers::{Code, Layer};

#[derive(Clone, Copy, Debug, PartialEq, Eq)]
pub enum TableFault {
    // There are not `PLACES` numbers, or their place has another length.
    LengthUnfit,
    // The first number that may not stand at its index.
    NumberUnfit(u8),
    // A closed walk over the cards undercuts the unit.
    Loop,
}

impl TableFault {
    // Layer, number and part.
    pub fn code(self) -> Code
        ensures { result ≡ table_code self }
    {
        let (number, part) = match self {
            TableFault::LengthUnfit => (28, PLACES as u8),
            TableFault::NumberUnfit(index) => (28, index),
            TableFault::Loop => (29, 0),
        };
        Code {
            layer: Layer::Register,
            number,
            part,
        }
    }
}
