// The text of an answer, whole.
ghost use Rattle.std.specs.Prelude.{◌≡◌, ◌≤◌, ◌==◌, length, map, slice_index_or};
ghost use Rattle.bay.specs.Sheet.{most_in_row};
ghost use Rattle.ticket.specs.Answers.{SameMemory, contents};
ghost use Rattle.ticket.specs.Faults.{ticket_code};
ghost use Rattle.ticket.specs.Texts.{texts};
ghost use Rattle.listing.specs.Answered.{Answered};
ghost use Rattle.listing.specs.Lengths.{Brief, most_answer, most_loop};
ghost use Rattle.listing.specs.Output.{Writes, Printed};
ghost use Rattle.listing.specs.Text.{answer_text, code_line, listing_text, loop_number, loop_text};
ghost use Rattle.listing.specs.Text.{no_amount, refusal_text, text_from};

use crate::output::Output;
use crate::text::{put_code_line, put_codes, put_leg, row_formats};
use bay::BayFault;
use costs::Cost;
use lines::Amount;
use ticket::{
    BayLine, Ends, FourCc, MOST_CODES, MOST_LEGS, Memory, Refusal, TicketCost, TicketFault,
    route_ticket,
};

// No text of an answer has more bytes.
pub const MOST_ANSWER: usize = 14_278;

// The memory of a ticket, as it is read to write its answer.
#[derive(Clone, Copy)]
pub struct View<'a, C> {
    pub costs: &'a [C],
    pub chains: &'a [u8],
    pub codes: &'a [FourCc; MOST_CODES],
    pub ends: &'a [Ends; MOST_LEGS],
}

// The amount that stands for cost `k` of the sheet.
fn amount_at<C: TicketCost>(costs: &[C], k: usize) -> Amount
    ensures { result ≡ slice_index_or (map C.writes costs.now) k no_amount }
{
    costs
        .get(k)
        .map_or(Amount::HalfLines(0), |cost| cost.amount())
}

// A line for each leg, and the end line.
fn put_listing<C: TicketCost>(out: &mut Output, view: &View<'_, C>, legs: usize)
    ensures written { Writes out.old out.new (listing_text view.now.codes.now
        view.now.ends.now (map C.writes view.now.costs.now) view.now.chains.now legs) }
    ensures short { length (listing_text view.now.codes.now view.now.ends.now
        (map C.writes view.now.costs.now) view.now.chains.now legs) ≤ most_answer }
{
    for (k, leg) in view.ends[..legs.min(MOST_LEGS)].iter().enumerate() {
        let cost = amount_at(view.costs, k);
        put_leg(out, view.codes, k, *leg, cost, row_formats(view.chains, k));
    }
    out.put(b"(end)");
    out.put(b"\n");
}

// The line of a loop.
fn put_loop(out: &mut Output, codes: &[FourCc; MOST_CODES], formats: &[u8])
    requires { length formats.now ≤ most_in_row }
    ensures written { Writes out.old out.new (loop_text codes.now formats.now) }
    ensures short { length (loop_text codes.now formats.now) ≤ most_loop }
{
    out.put(b"(loop (");
    put_codes(out, codes, formats);
    out.put(b"))");
    out.put(b"\n");
}

// Whether a ticket is refused for a loop, which then stands in row 0.
fn is_loop(fault: TicketFault) -> bool
    ensures { result ≡ ((ticket_code fault).number == loop_number) }
{
    matches!(fault, TicketFault::Bay(BayFault::Loop))
}

// The line of a refusal, and that of the loop if there is one.
fn put_refusal(out: &mut Output, chains: &[u8], codes: &[FourCc; MOST_CODES], refusal: Refusal)
    ensures written { Writes out.old out.new (refusal_text codes.now chains.now refusal) }
    ensures short { length (refusal_text codes.now chains.now refusal) ≤ most_answer }
{
    put_code_line(out, refusal.fault.code(), refusal.byte);
    if is_loop(refusal.fault) {
        put_loop(out, codes, row_formats(chains, 0));
    }
}

// The whole text.
fn put_answer<C: TicketCost>(out: &mut Output, answer: &Result<usize, Refusal>, view: &View<'_, C>)
    ensures written { Writes out.old out.new (answer_text view.now.codes.now
        view.now.ends.now (map C.writes view.now.costs.now) view.now.chains.now answer.now) }
    ensures short { length (answer_text view.now.codes.now view.now.ends.now
        (map C.writes view.now.costs.now) view.now.chains.now answer.now) ≤ most_answer }
{
    match answer {
        Ok(legs) => put_listing(out, view, *legs),
        Err(refusal) => put_refusal(out, view.chains, view.codes, *refusal),
    }
}

// A place that is too short for a text: how many bytes it needs.
#[derive(Clone, Copy, Debug, PartialEq, Eq)]
pub struct PlaceShort {
    pub needed: usize,
}

// Writes the text of an answer, from what a ticket has left in the memory that was lent for it, and answers its length. A
// place that is too short is left as it was.
pub fn write_answer<C: TicketCost>(
    place: &mut [u8],
    answer: &Result<usize, Refusal>,
    view: View<'_, C>,
) -> Result<usize, PlaceShort>
    ensures printed { Printed place.old place.new (answer_text view.entry.codes.now
        view.entry.ends.now (map C.writes view.entry.costs.now) view.entry.chains.now
        answer.now) result }
    ensures brief { Brief place.old result }
{
    let mut nothing: [u8; 0] = [];
    let mut count = Output::new(&mut nothing);
    put_answer(&mut count, answer, &view);
    let length = count.finish();
    if length > place.len() {
        return Err(PlaceShort { needed: length });
    }
    let mut out = Output::new(place);
    put_answer(&mut out, answer, &view);
    Ok(out.finish())
}

// Writes the line of a ticket that is refused at its first line.
pub fn write_refusal(place: &mut [u8], refusal: Refusal) -> Result<usize, PlaceShort>
    ensures printed { let line = code_line (ticket_code refusal.fault) refusal.byte in
        Printed place.old place.new line result }
    ensures brief { Brief place.old result }
{
    let mut nothing: [u8; 0] = [];
    let mut count = Output::new(&mut nothing);
    put_code_line(&mut count, refusal.fault.code(), refusal.byte);
    let needed = count.finish();
    if needed > place.len() {
        return Err(PlaceShort { needed });
    }
    let mut out = Output::new(place);
    put_code_line(&mut out, refusal.fault.code(), refusal.byte);
    Ok(out.finish())
}

// Writes the text of an answer from the memory that is lent. A function of its own: within `answer_ticket`, whose struct holds
// `&mut`, the checker does not cover a `&` through it.
fn write_lent<C: TicketCost>(
    place: &mut [u8],
    answer: &Result<usize, Refusal>,
    memory: &Memory<'_, C>,
) -> Result<usize, PlaceShort>
    ensures printed { let text = text_from C.writes (contents memory.now) answer.now in
        Printed place.old place.new text result }
    ensures brief { Brief place.old result }
{
    let view = View {
        costs: memory.costs,
        chains: memory.chains,
        codes: memory.codes,
        ends: memory.ends,
    };
    write_answer(place, answer, view)
}

// What a ticket is told: how many legs it has or why it is refused, and how long the text of that is or how much it needs.
#[derive(Clone, Copy, Debug, PartialEq, Eq)]
pub struct TicketAnswer {
    pub verdict: Result<usize, Refusal>,
    pub text: Result<usize, PlaceShort>,
}

// Routes a ticket whose first line was read, and writes the text of its answer, in memory that is lent. The verdict is that of
// `route_ticket`, and the text that of `write_answer`.
pub fn answer_ticket<C: TicketCost>(
    text: &[u8],
    bay: BayLine,
    memory: &mut Memory<'_, C>,
    place: &mut [u8],
) -> TicketAnswer
    ensures answer { Answered C.Cost (texts C.reads C.writes) text.now bay
        (contents memory.old) (contents memory.new) place.old place.new result }
    ensures brief { Brief place.old result.text }
    ensures same { SameMemory memory.old memory.new }
{
    let verdict = route_ticket(text, bay, memory);
    let text = write_lent(place, &verdict, memory);
    TicketAnswer { verdict, text }
}
