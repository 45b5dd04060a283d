// The words of each cause that a call tells.
ghost use Rattle.std.specs.Prelude.{◌≡◌, ◌≤◌, length};
ghost use Rattle.hurzelma.specs.Words.{EachCauseHasWords, bay_words, cause_number, cause_words};
ghost use Rattle.hurzelma.specs.Words.{is_of_number, register_words, table_words, ticket_words};
ghost use Rattle.hurzelma.specs.Words.{most_words, words_told};

use crate::fault_number;
use bay::BayFault;
use registers::RegisterFault;
use tables::{PLACES, TableFault};
use ticket::TicketFault;

// A cause. Those of a ticket carry the bay's, and these the register's.
#[derive(Clone, Copy)]
enum Cause {
    Ticket(TicketFault),
    Table(TableFault),
}

// Every cause but those of one number of a table.
const CAUSES: [Cause; 27] = [
    Cause::Ticket(TicketFault::TooLong),
    Cause::Ticket(TicketFault::Unfit),
    Cause::Ticket(TicketFault::OutOfField),
    Cause::Ticket(TicketFault::CodeUsed),
    Cause::Ticket(TicketFault::Bay(BayFault::Register(RegisterFault::FromOutside))),
    Cause::Ticket(TicketFault::Bay(BayFault::Register(RegisterFault::ToOutside))),
    Cause::Ticket(TicketFault::Bay(BayFault::Register(RegisterFault::SameEnds))),
    Cause::Ticket(TicketFault::Bay(BayFault::Register(RegisterFault::CostNotAdmitted))),
    Cause::Ticket(TicketFault::Bay(BayFault::Register(RegisterFault::SizeUnfit))),
    Cause::Ticket(TicketFault::Bay(BayFault::Register(RegisterFault::MemoryUnfit))),
    Cause::Ticket(TicketFault::Bay(BayFault::Register(RegisterFault::Sealed))),
    Cause::Ticket(TicketFault::Bay(BayFault::Register(RegisterFault::NoCard))),
    Cause::Ticket(TicketFault::Bay(BayFault::Register(RegisterFault::NoPlace))),
    Cause::Ticket(TicketFault::Bay(BayFault::FromOutside)),
    Cause::Ticket(TicketFault::Bay(BayFault::ToOutside)),
    Cause::Ticket(TicketFault::Bay(BayFault::SecondOutside)),
    Cause::Ticket(TicketFault::Bay(BayFault::NoLeg)),
    Cause::Ticket(TicketFault::Bay(BayFault::TableShort)),
    Cause::Ticket(TicketFault::Bay(BayFault::CostsShort)),
    Cause::Ticket(TicketFault::Bay(BayFault::ChainsShort)),
    Cause::Ticket(TicketFault::Bay(BayFault::AnswersShort)),
    Cause::Ticket(TicketFault::Bay(BayFault::LegsFull)),
    Cause::Ticket(TicketFault::Bay(BayFault::NoLegs)),
    Cause::Ticket(TicketFault::Bay(BayFault::Loop)),
    Cause::Ticket(TicketFault::Bay(BayFault::NoSplit)),
    Cause::Table(TableFault::LengthUnfit),
    Cause::Table(TableFault::Loop),
];

fn register_words(fault: RegisterFault) -> &'static [u8]
    ensures words { result.now ≡ register_words fault }
    ensures short { length result.now ≤ most_words }
{
    match fault {
        RegisterFault::FromOutside => b"the card's first format does not exist",
        RegisterFault::ToOutside => b"the card's second format does not exist",
        RegisterFault::SameEnds => b"the card leads from a format to itself",
        RegisterFault::CostNotAdmitted => b"no card may have this cost",
        RegisterFault::SizeUnfit => b"no register has so many formats",
        RegisterFault::MemoryUnfit => b"the register's memory is too short",
        RegisterFault::Sealed => b"the pair is sealed",
        RegisterFault::NoCard => b"the pair to withdraw has no card",
        RegisterFault::NoPlace => b"no place is left for another card",
    }
}

fn bay_words(fault: BayFault) -> &'static [u8]
    ensures words { result.now ≡ bay_words fault }
    ensures short { length result.now ≤ most_words }
{
    match fault {
        BayFault::Register(fault) => register_words(fault),
        BayFault::FromOutside => b"the leg's first format or a fork's input does not exist",
        BayFault::ToOutside => b"the leg's second format or a fork's first output does not exist",
        BayFault::SecondOutside => b"a fork's second output does not exist",
        BayFault::NoLeg => b"no leg has this number",
        BayFault::TableShort => b"the table is too short",
        BayFault::CostsShort => b"the cost sheet is too short",
        BayFault::ChainsShort => b"the chain sheet is too short",
        BayFault::AnswersShort => b"the answers are too few",
        BayFault::LegsFull => b"no place is left for another leg",
        BayFault::NoLegs => b"no leg is booked",
        BayFault::Loop => b"a loop of cards undercuts the unit",
        BayFault::NoSplit => b"no walk leads from the input to one of its outputs",
    }
}

fn ticket_words(fault: TicketFault) -> &'static [u8]
    ensures words { result.now ≡ ticket_words fault }
    ensures short { length result.now ≤ most_words }
{
    match fault {
        TicketFault::TooLong => b"the ticket is too long",
        TicketFault::Unfit => b"no line that is allowed here has this byte",
        TicketFault::OutOfField => b"the number lies outside of its field",
        TicketFault::CodeUsed => b"an earlier format has the code",
        TicketFault::Bay(fault) => bay_words(fault),
    }
}

fn table_words(fault: TableFault) -> &'static [u8]
    ensures words { result.now ≡ table_words fault }
    ensures short { length result.now ≤ most_words }
{
    match fault {
        TableFault::LengthUnfit => b"the table or its place has another length",
        TableFault::NumberUnfit(_) => b"the number may not stand at its index",
        TableFault::Loop => b"a loop of the table's cards undercuts the unit",
    }
}

impl Cause {
    // The number that tells it.
    fn number(self) -> u32
        ensures { result ≡ cause_number self }
    {
        match self {
            Cause::Ticket(fault) => fault_number(fault.code()),
            Cause::Table(fault) => fault_number(fault.code()),
        }
    }

    fn words(self) -> &'static [u8]
        ensures words { result.now ≡ cause_words self }
        ensures short { length result.now ≤ most_words }
    {
        match self {
            Cause::Ticket(fault) => ticket_words(fault),
            Cause::Table(fault) => table_words(fault),
        }
    }
}

// Whether a number of a table is told to be unfit, whichever it is.
fn is_of_number(told: u32) -> bool
    ensures { result ≡ is_of_number told }
{
    let first = fault_number(TableFault::NumberUnfit(0).code());
    first <= told && told < first + PLACES as u32
}

// The words of the cause that is told by a number; none where no cause is.
pub fn words_told(told: u32) -> &'static [u8]
    ensures words { result.now ≡ words_told told }
    ensures short { length result.now ≤ most_words }
    ensures every { EachCauseHasWords }
{
    if is_of_number(told) {
        return table_words(TableFault::NumberUnfit(0));
    }
    for cause in &CAUSES {
        if cause.number() == told {
            return cause.words();
        }
    }
    b""
}
