// The lines of cards and legs, and the end line: a card is entered in the bay, and a leg is booked.
ghost use Rattle.std.specs.Prelude.{◌≡◌, [], length, if◌then◌else◌, nat_eq};
ghost use Rattle.bay.specs.Bays.{legs, plain};
ghost use Rattle.lines.specs.declared.line.Stage.TheVariants.{Cards, Legs};
ghost use Rattle.ticket.specs.Kinds.{read_as};
ghost use Rattle.ticket.specs.Steps.{OrderAnswer, OrdersAnswer};

use crate::fault::{Refusal, TicketFault, at_byte};
use crate::kinds::TicketCost;
use bay::{Bay, Ends, MOST_LEGS};
use costs::Cost;
use lines::{Kind, Line, Stage, read_line};
use registers::Register;

// How far the lines are read, and how many legs are booked.
#[derive(Clone, Copy)]
struct Progress {
    place: usize,
    legs: usize,
}

// What lines may come once every format has its code: no more cards once there is a leg.
fn order_stage(kind: Kind, legs: usize) -> Stage
    ensures { result ≡ (if nat_eq legs 0 then Cards kind else Legs) }
{
    if legs == 0 {
        Stage::Cards(kind)
    } else {
        Stage::Legs
    }
}

// One line: its card is entered, or its leg booked; none where it is the end line, and nothing follows it.
fn read_order<C: TicketCost, R: Register<Cost = C>>(
    text: &[u8],
    kind: Kind,
    at: Progress,
    bay: &mut Bay<R>,
    ends: &mut [Ends; MOST_LEGS],
) -> Result<Option<Progress>, Refusal>
    requires { at.legs ≡ length (legs bay.old) }
    ensures { OrderAnswer C.Cost (read_as kind C.reads) text.now at.place
        (plain bay.old) (plain bay.new) ends.old ends.new result }
{
    let Progress { place, legs } = at;
    let read = read_line(text, place, order_stage(kind, legs))?;
    match read.line {
        Line::Card { from, to, cost } => {
            at_byte(bay.enter(from, to, C::of_amount(cost)), place)?;
            Ok(Some(Progress {
                place: read.end,
                legs,
            }))
        }
        Line::Leg { from, to } => {
            let number = at_byte(bay.book(from, to), place)?;
            ends[number] = Ends { from, to };
            Ok(Some(Progress {
                place: read.end,
                legs: number + 1,
            }))
        }
        _ => {
            if read.end < text.len() {
                return Err(TicketFault::Unfit.at(read.end));
            }
            Ok(None)
        }
    }
}

// All cards and legs of a ticket, on a bay without legs: where its end line begins.
pub(crate) fn read_orders<C: TicketCost, R: Register<Cost = C>>(
    text: &[u8],
    kind: Kind,
    from: usize,
    bay: &mut Bay<R>,
    ends: &mut [Ends; MOST_LEGS],
) -> Result<usize, Refusal>
    requires { legs bay.old ≡ [] }
    ensures as_long { length ends.new ≡ length ends.old }
    ensures answer { OrdersAnswer C.Cost (read_as kind C.reads) text.now from
        (plain bay.old) (plain bay.new) ends.old ends.new result }
{
    let mut at = Progress {
        place: from,
        legs: 0,
    };
    while let Some(next) = read_order(text, kind, at, bay, ends)? {
        at = next;
    }
    Ok(at.place)
}
