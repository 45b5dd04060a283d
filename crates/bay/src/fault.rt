// Why a bay refuses a call.
ghost use Rattle.std.specs.Prelude.{◌≡◌};
ghost use Rattle.registers.specs.Ends.{ends_code};
ghost use Rattle.registers.specs.declared.fault.Layer.TheVariants.{Bay as BayLayer};
ghost use Rattle.bay.specs.Faults.{bay_code, carried};

use registers::{Code, EndsFault, Layer, RegisterFault};

#[derive(Clone, Copy, Debug, PartialEq, Eq)]
pub enum BayFault {
    // The register refused, and its fault is carried whole.
    Register(RegisterFault),
    FromOutside,
    ToOutside,
    // The second output of a fork.
    SecondOutside,
    NoLeg,
    TableShort,
    CostsShort,
    ChainsShort,
    AnswersShort,
    LegsFull,
    NoLegs,
    // A closed walk undercuts the unit.
    Loop,
    // No walk leads from a fork's input to one of its outputs.
    NoSplit,
}

impl BayFault {
    // Layer, number and part.
    pub fn code(self) -> Code
        ensures { result ≡ bay_code self }
    {
        let (number, part) = match self {
            BayFault::Register(fault) => return fault.code(),
            BayFault::FromOutside => (11, 0),
            BayFault::ToOutside => (11, 1),
            BayFault::SecondOutside => (11, 2),
            BayFault::NoLeg => (14, 0),
            BayFault::TableShort => (15, 0),
            BayFault::CostsShort => (15, 1),
            BayFault::ChainsShort => (15, 2),
            BayFault::AnswersShort => (15, 3),
            BayFault::LegsFull => (24, 0),
            BayFault::NoLegs => (25, 0),
            BayFault::Loop => (26, 0),
            BayFault::NoSplit => (27, 0),
        };
        Code {
            layer: Layer::Bay,
            number,
            part,
        }
    }
}

impl From<RegisterFault> for BayFault {
    ghost from_gives = { λ f r. r ≡ carried f };

    fn from(fault: RegisterFault) -> BayFault {
        BayFault::Register(fault)
    }
}

// Its own causes, with a layer of their own, as in a register.
impl From<EndsFault> for BayFault {
    ghost from_gives = { λ f r. bay_code r ≡ ends_code BayLayer f };

    fn from(fault: EndsFault) -> BayFault {
        match fault {
            EndsFault::FromOutside => BayFault::FromOutside,
            EndsFault::ToOutside => BayFault::ToOutside,
        }
    }
}
