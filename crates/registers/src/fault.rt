// Faults: why a call is refused.
ghost use Rattle.std.specs.Prelude.{◌≡◌, Some};
ghost use Rattle.registers.specs.Fault.{register_code};
ghost use Rattle.registers.specs.Ends.{ends_code};
ghost use Rattle.registers.specs.Text.{layer_text, code_text};
ghost use Rattle.registers.specs.declared.fault.Layer.TheVariants.{Register};

use std::fmt;

// Where a call was refused.
#[derive(Clone, Copy, Debug, PartialEq, Eq)]
pub enum Layer {
    Ticket,
    Bay,
    Register,
}

impl fmt::Display for Layer {
    ghost output = { λ l. Some (layer_text l) };

    fn fmt<W: fmt::Write>(&self, f: &mut fmt::Formatter<W>) -> fmt::Result {
        match self {
            Layer::Ticket => write!(f, "ticket"),
            Layer::Bay => write!(f, "bay"),
            Layer::Register => write!(f, "register"),
        }
    }
}

// What a caller is told of a fault. The part says which argument is meant, and is 0 where none is.
#[derive(Clone, Copy, Debug, PartialEq, Eq)]
pub struct Code {
    pub layer: Layer,
    pub number: u8,
    pub part: u8,
}

impl fmt::Display for Code {
    ghost output = { λ c. Some (code_text c) };

    fn fmt<W: fmt::Write>(&self, f: &mut fmt::Formatter<W>) -> fmt::Result {
        let Code {
            layer,
            number,
            part,
        } = self;
        write!(f, "{layer} {number}.{part}")
    }
}

// Why two ends are refused. Each layer tells it under its own name.
#[derive(Clone, Copy, Debug, PartialEq, Eq)]
pub enum EndsFault {
    FromOutside,
    ToOutside,
}

// Why a register, or the check before one is made, refuses.
#[derive(Clone, Copy, Debug, PartialEq, Eq)]
pub enum RegisterFault {
    FromOutside,
    ToOutside,
    SameEnds,
    CostNotAdmitted,
    SizeUnfit,
    MemoryUnfit,
    Sealed,
    NoCard,
    NoPlace,
}

impl RegisterFault {
    // Layer, number and part.
    pub fn code(self) -> Code
        ensures { result ≡ register_code self }
    {
        let (number, part) = match self {
            RegisterFault::FromOutside => (11, 0),
            RegisterFault::ToOutside => (11, 1),
            RegisterFault::SameEnds => (12, 1),
            RegisterFault::CostNotAdmitted => (13, 2),
            RegisterFault::SizeUnfit => (16, 0),
            RegisterFault::MemoryUnfit => (16, 1),
            RegisterFault::Sealed => (21, 0),
            RegisterFault::NoCard => (22, 0),
            RegisterFault::NoPlace => (23, 0),
        };
        Code {
            layer: Layer::Register,
            number,
            part,
        }
    }
}

// The register's causes and the bay's name the ends' faults as their own, as each is told with a layer of its own.
impl From<EndsFault> for RegisterFault {
    ghost from_gives = { λ f r. register_code r ≡ ends_code Register f };

    fn from(fault: EndsFault) -> RegisterFault {
        match fault {
            EndsFault::FromOutside => RegisterFault::FromOutside,
            EndsFault::ToOutside => RegisterFault::ToOutside,
        }
    }
}
