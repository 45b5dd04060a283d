// Tickets answered in memory of our own, for those who have none to lend.
ghost use Rattle.std.specs.Prelude.{◌≡◌, Err};
ghost use Rattle.ticket.specs.Answers.{HasBay};
ghost use Rattle.ticket.specs.Faults.{ticket_code};
ghost use Rattle.ticket.specs.Texts.{delay_texts, depth_texts, both_texts};
ghost use Rattle.costs.specs.Kinds.{delays, depths, boths};
ghost use Rattle.listing.specs.Answered.{Listed, ListedOf};
ghost use Rattle.listing.specs.Lengths.{Brief};
ghost use Rattle.listing.specs.Output.{Printed};
ghost use Rattle.listing.specs.Text.{code_line};

use crate::answer::{TicketAnswer, answer_ticket, write_refusal};
use bay::Cell;
use costs::{Cost, Delay, Depth, Pair};
use lines::Kind;
use ticket::{
    BayLine, CHAIN_BYTES, Ends, MOST_CODES, MOST_LEGS, Memory, Refusal, TICKET_ENTRIES, read_bay,
};

// As many cells as a register of the most formats wants: each format has a code.
const CELLS: usize = MOST_CODES * MOST_CODES;

// A ticket answered in memory that will do for every ticket of this kind. A macro: a function over every kind would owe that the
// kind's costs have a size.
macro_rules! answered {
    ($kind:ty, $text:expr, $bay:expr, $place:expr) => {{
        let mut memory = Memory {
            entries: &mut [None; TICKET_ENTRIES],
            table: &mut [Cell::empty(); CELLS],
            costs: &mut [<$kind>::unit(); MOST_LEGS],
            chains: &mut [0; CHAIN_BYTES],
            codes: &mut [[0; 4]; MOST_CODES],
            ends: &mut [Ends { from: 0, to: 0 }; MOST_LEGS],
        };
        answer_ticket($text, $bay, &mut memory, $place)
    }};
}

// Each kind has a function of its own, so that the memory of one kind alone is taken.

#[inline(never)]
fn answer_delays(text: &[u8], bay: BayLine, place: &mut [u8]) -> TicketAnswer
    ensures listed { ListedOf delays delay_texts text.now bay place.old place.new result }
    ensures brief { Brief place.old result.text }
{
    answered!(Delay, text, bay, place)
}

#[inline(never)]
fn answer_depths(text: &[u8], bay: BayLine, place: &mut [u8]) -> TicketAnswer
    ensures listed { ListedOf depths depth_texts text.now bay place.old place.new result }
    ensures brief { Brief place.old result.text }
{
    answered!(Depth, text, bay, place)
}

#[inline(never)]
fn answer_boths(text: &[u8], bay: BayLine, place: &mut [u8]) -> TicketAnswer
    ensures listed { ListedOf boths both_texts text.now bay place.old place.new result }
    ensures brief { Brief place.old result.text }
{
    answered!(Pair<Delay, Depth>, text, bay, place)
}

// A ticket that is refused at its first line.
fn answer_refused(refusal: Refusal, place: &mut [u8]) -> TicketAnswer
    ensures verdict { result.verdict ≡ Err refusal }
    ensures printed { let line = code_line (ticket_code refusal.fault) refusal.byte in
        Printed place.old place.new line result.text }
    ensures brief { Brief place.old result.text }
{
    TicketAnswer {
        verdict: Err(refusal),
        text: write_refusal(place, refusal),
    }
}

// Routes a ticket and writes the text of its answer, which has `MOST_ANSWER` bytes at most. It works in some sixty thousand
// bytes of the stack, and allocates nothing.
pub fn answer_on_stack(text: &[u8], place: &mut [u8]) -> TicketAnswer
    ensures listed { Listed text.now place.old place.new result }
    ensures brief { Brief place.old result.text }
{
    match read_bay(text) {
        Ok(bay) => match bay.kind {
            Kind::Delay => answer_delays(text, bay, place),
            Kind::Depth => answer_depths(text, bay, place),
            Kind::Both => answer_boths(text, bay, place),
        },
        Err(refusal) => answer_refused(refusal, place),
    }
}
