// Why a ticket is refused, and at which byte.
ghost use Rattle.std.specs.Prelude.{◌≡◌};
ghost use Rattle.ticket.specs.Faults.{ticket_code, passed_on, unfit_at, at_byte};

use bay::BayFault;
use lines::Unfit;
use registers::{Code, Layer};

#[derive(Clone, Copy, Debug, PartialEq, Eq)]
pub enum TicketFault {
    // It has more bytes than a ticket may have.
    TooLong,
    // A byte fits no line that is allowed there, or the text ends where a line is due.
    Unfit,
    // A number lies outside of its field.
    OutOfField,
    // An earlier format has the code.
    CodeUsed,
    // A call that the ticket makes is refused, and its fault is carried whole.
    Bay(BayFault),
}

// A fault, and the byte of the ticket that is told with it.
#[derive(Clone, Copy, Debug, PartialEq, Eq)]
pub struct Refusal {
    pub fault: TicketFault,
    pub byte: usize,
}

impl TicketFault {
    // Layer, number and part.
    pub fn code(self) -> Code
        ensures { result ≡ ticket_code self }
    {
        let number = match self {
            TicketFault::TooLong => 1,
            TicketFault::Unfit => 2,
            TicketFault::OutOfField => 3,
            TicketFault::CodeUsed => 4,
            TicketFault::Bay(fault) => return fault.code(),
        };
        Code {
            layer: Layer::Ticket,
            number,
            part: 0,
        }
    }

    // The fault told at a byte.
    pub(crate) fn at(self, byte: usize) -> Refusal
        ensures { result ≡ record { fault = self; byte = byte } }
    {
        Refusal { fault: self, byte }
    }
}

impl From<BayFault> for TicketFault {
    ghost from_gives = { λ f r. r ≡ passed_on f };

    fn from(fault: BayFault) -> TicketFault {
        TicketFault::Bay(fault)
    }
}

// Where no line can be read, the ticket is refused.
impl From<Unfit> for Refusal {
    ghost from_gives = { λ u r. r ≡ unfit_at u };

    fn from(unfit: Unfit) -> Refusal {
        TicketFault::Unfit.at(unfit.byte)
    }
}

// A call's answer; where it is refused, with the byte of the line that made it.
pub(crate) fn at_byte<T>(res: Result<T, BayFault>, byte: usize) -> Result<T, Refusal>
    ensures { result ≡ at_byte byte res }
{
    res.map_err(|fault| TicketFault::from(fault).at(byte))
}
