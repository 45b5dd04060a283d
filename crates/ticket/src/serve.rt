// A ticket, from its text to its answer.
ghost use Rattle.std.specs.Prelude.{◌≡◌, ◌≤◌, [], length};
ghost use Rattle.registers.specs.Fault.{first_cause};
ghost use Rattle.registers.specs.Meaning.{most_formats};
ghost use Rattle.bay.specs.Bays.{legs, plain};
ghost use Rattle.ticket.specs.Answers.{BayAnswer, KindAnswer, LinesAnswer, SameMemory, contents, lent_contents};
ghost use Rattle.ticket.specs.Faults.{told_of};
ghost use Rattle.ticket.specs.Kinds.{read_as};
ghost use Rattle.ticket.specs.Said.{said, bay_causes};

use crate::fault::{Refusal, TicketFault, at_byte};
use crate::formats::{FourCc, MOST_CODES, read_formats};
use crate::kinds::TicketCost;
use crate::orders::read_orders;
use bay::{Bay, BayFault, Cell, Ends, MOST_LEGS};
use costs::Cost;
use lent::{Entry, List};
use lines::{Kind, Line, Stage, read_line, size_begins};
use registers::{LEAST_FORMATS, MOST_FORMATS, Register, RegisterFault};

// The cards of a ticket lie in so many entries.
pub const TICKET_ENTRIES: usize = 512;

// A ticket has at most so many bytes.
pub const MOST_BYTES: usize = 32_768;

// The first line of a ticket: its kind, its number of formats, and where the lines after it begin.
#[derive(Clone, Copy, Debug, PartialEq, Eq)]
pub struct BayLine {
    pub kind: Kind,
    pub size: usize,
    pub end: usize,
}

// The memory that is lent for a ticket, once its kind is known: entries for the cards, the table and the sheets of route, and
// places for the codes of the formats and the ends of the legs.
pub struct Memory<'a, C> {
    pub entries: &'a mut [Option<Entry<C>>],
    pub table: &'a mut [Cell<C>],
    pub costs: &'a mut [C],
    pub chains: &'a mut [u8],
    pub codes: &'a mut [FourCc; MOST_CODES],
    pub ends: &'a mut [Ends; MOST_LEGS],
}

// When it ends, the memory is given back as it then is.
impl<C> Drop for Memory<'_, C> {
    fn drop(self)
        ensures entries { self.exit.0.now ≡ self.entry.entries.now }
        ensures table { self.exit.1.0.now ≡ self.entry.table.now }
        ensures costs { self.exit.1.1.0.now ≡ self.entry.costs.now }
        ensures chains { self.exit.1.1.1.0.now ≡ self.entry.chains.now }
        ensures codes { self.exit.1.1.1.1.0.now ≡ self.entry.codes.now }
        ensures ends { self.exit.1.1.1.1.1.0.now ≡ self.entry.ends.now }
    {
        let Memory {
            entries: _,
            table: _,
            costs: _,
            chains: _,
            codes: _,
            ends: _,
        } = self;
    }
}

// Reads the first line of a ticket, or refuses the ticket for its length or at the byte.
pub fn read_bay(text: &[u8]) -> Result<BayLine, Refusal>
    ensures { BayAnswer text.now result }
{
    if text.len() > MOST_BYTES {
        return Err(TicketFault::TooLong.at(MOST_BYTES));
    }
    let read = read_line(text, 0, Stage::Start)?;
    let Line::Bay { kind, size } = read.line else {
        return Err(TicketFault::Unfit.at(0));
    };
    Ok(BayLine {
        kind,
        size,
        end: read.end,
    })
}

// That the bay of a bay line can be made with so many entries, or the first cause why not.
fn judge_bay(bay: BayLine, entries: usize) -> Result<(), Refusal>
    ensures { told_of result ≡ first_cause (bay_causes bay.kind bay.size entries) }
{
    if !(LEAST_FORMATS..=MOST_FORMATS).contains(&bay.size) {
        return Err(TicketFault::OutOfField.at(size_begins(bay.kind)));
    }
    if entries < TICKET_ENTRIES {
        let fault = BayFault::from(RegisterFault::MemoryUnfit);
        return Err(TicketFault::from(fault).at(0));
    }
    Ok(())
}

// The lines after the bay line of this kind, on a bay of `n` formats without legs, and the route at their end: the number of legs. The memory
// is lent place by place, since the bay holds the entries meanwhile.
fn route_lines<C: TicketCost, R: Register<Cost = C>>(
    text: &[u8],
    kind: Kind,
    from: usize,
    n: usize,
    bay: &mut Bay<R>,
    table: &mut [Cell<C>],
    costs: &mut [C],
    chains: &mut [u8],
    codes: &mut [FourCc; MOST_CODES],
    ends: &mut [Ends; MOST_LEGS],
) -> Result<usize, Refusal>
    requires size { (R.holds bay.old.register).size ≡ n }
    requires few { n ≤ most_formats }
    requires legs { legs bay.old ≡ [] }
    ensures answer { let before = lent_contents table.old costs.old chains.old codes.old ends.old in
        let after = lent_contents table.new costs.new chains.new codes.new ends.new in
        LinesAnswer C.Cost (read_as kind C.reads) text.now from before after result
        (said [] (plain bay.old)) }
    ensures codes { length codes.new ≡ length codes.old }
    ensures ends { length ends.new ≡ length ends.old }
{
    let orders = read_formats::<C>(text, from, n, codes)?;
    let end = read_orders(text, kind, orders, bay, ends)?;
    at_byte(bay.route(table, costs, chains), end)
}

// Routes a ticket whose first line was read, or refuses it with the byte. It works in the memory that is lent for it, and
// answers the number of legs.
pub fn route_ticket<C: TicketCost>(
    text: &[u8],
    bay: BayLine,
    memory: &mut Memory<'_, C>,
) -> Result<usize, Refusal>
    ensures answer { KindAnswer C.Cost (read_as bay.kind C.reads) text.now bay.end
        (contents memory.old) (contents memory.new) result bay.size }
    ensures same { SameMemory memory.old memory.new }
{
    judge_bay(bay, memory.entries.len())?;
    let entries = &mut *memory.entries;
    let mut made = Bay::new(List::new(bay.size, &mut entries[0..TICKET_ENTRIES]));
    route_lines(
        text,
        bay.kind,
        bay.end,
        bay.size,
        &mut made,
        memory.table,
        memory.costs,
        memory.chains,
        memory.codes,
        memory.ends,
    )
}
