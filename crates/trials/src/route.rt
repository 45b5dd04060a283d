// Routes legs over the same cards in a matrix and in a list, and checks what the bay wrote against the cards.
use crate::kind::Kind;
use crate::rows::print_rows;
use bay::{Answer, Bay, Call, Cell, Ends, Leg, Note, ROW};
use lent::{Entry, List, Matrix};
use registers::{Bars, Over, Register, Turned};
use std::alloc::{AllocError, Global};

#[derive(Clone, Copy)]
pub struct Card {
    pub from: usize,
    pub to: usize,
    pub number: i32,
}

impl Card {
    // The card turned round.
    pub fn reversed(&self) -> Card {
        Card {
            from: self.to,
            to: self.from,
            number: self.number,
        }
    }
}

// Cards to enter and legs to route; whether chains are to be printed too.
#[derive(Clone, Copy)]
pub struct Job<'a> {
    pub n: usize,
    pub cards: &'a [Card],
    pub legs: &'a [Ends],
    pub chains: bool,
}

// What the bytes of the chain sheet are before a route.
const JUNK: u8 = 9;

// A table and sheets with something in them.
#[derive(Drop)]
pub struct Sheets<C> {
    pub table: Vec<Cell<C>>,
    pub costs: Vec<C>,
    pub chains: Vec<u8>,
}

impl<C: Kind> Sheets<C> {
    // For n formats, two cells more than need be, and so many entries and rows.
    pub fn new(heap: Global, n: usize, rows: usize) -> Result<Sheets<C>, AllocError> {
        let junk = Cell {
            cost: C::of_number(3),
        };
        Ok(Sheets {
            table: vec![in heap; junk; n.saturating_mul(n).saturating_add(2)]?,
            costs: vec![in heap; C::of_number(11); rows]?,
            chains: vec![in heap; JUNK; rows.saturating_mul(ROW)]?,
        })
    }

    // Whether the sheets are as they were, from these rows and entries on.
    pub fn is_as_found(&self, rows: usize, entries: usize) -> bool {
        self.chains
            .chunks(ROW)
            .skip(rows)
            .all(|row| row.iter().all(|byte| *byte == JUNK))
            && self
                .costs
                .iter()
                .skip(entries)
                .all(|cost| cost.number() == C::of_number(11).number())
    }
}

// The formats of a row, and what is behind them; none where the row is too short for its count. Cut here and not by the listing,
// since the trials judge what was written.
pub fn split_row(row: &[u8]) -> Option<(&[u8], &[u8])> {
    let (count, bytes) = row.split_first()?;
    bytes.split_at_checked(usize::from(*count))
}

// The formats of a row.
pub fn formats(row: &[u8]) -> &[u8] {
    split_row(row).map_or(&[], |(formats, _)| formats)
}

// Whether all that is behind the formats of a row is 255.
pub fn is_filled(behind: &[u8]) -> bool {
    behind.iter().all(|byte| *byte == 255)
}

fn is_without_repeats(formats: &[u8]) -> bool {
    formats
        .iter()
        .enumerate()
        .all(|(i, a)| formats.iter().take(i).all(|b| *a != *b))
}

// What the cards along a walk come to; none where one does not stand.
pub fn walk_number<C: Kind, R: Register<Cost = C>>(register: &R, formats: &[u8]) -> Option<i32> {
    formats
        .iter()
        .zip(formats.iter().skip(1))
        .try_fold(C::neutral(), |so_far, (from, to)| {
            let card = register.card(usize::from(*from), usize::from(*to))?;
            Some(C::combined(so_far, card.number()))
        })
}

// Whether the formats are a chain for the leg at this number, or there are none and the number says so.
pub fn is_right<C: Kind, R: Register<Cost = C>>(
    register: &R,
    leg: Ends,
    formats: &[u8],
    number: i32,
) -> bool {
    let (Some(first), Some(last)) = (formats.first(), formats.last()) else {
        return number == C::neutral();
    };
    usize::from(*first) == leg.from
        && usize::from(*last) == leg.to
        && is_without_repeats(formats)
        && walk_number(register, formats) == Some(number)
}

// Whether two chains without repeats are the same from where they meet.
fn is_in_step(a: &[u8], b: &[u8]) -> bool {
    a.iter().enumerate().all(|(i, x)| {
        b.iter()
            .position(|y| *x == *y)
            .is_none_or(|j| a.get(i..) == b.get(j..))
    })
}

// Whether the chains to one destination agree.
fn is_agreed<C: Kind>(legs: &[Ends], sheets: &Sheets<C>) -> bool {
    legs.iter().zip(sheets.chains.chunks(ROW)).all(|(leg, one)| {
        legs.iter().zip(sheets.chains.chunks(ROW)).all(|(other, two)| {
            leg.to != other.to || is_in_step(formats(one), formats(two))
        })
    })
}

// Whether every leg has what it must.
pub fn is_granted<C: Kind, R: Register<Cost = C>>(
    register: &R,
    legs: &[Ends],
    sheets: &Sheets<C>,
) -> bool {
    legs.iter()
        .zip(sheets.costs.iter())
        .zip(sheets.chains.chunks(ROW))
        .all(|((leg, cost), row)| {
            split_row(row).is_some_and(|(formats, behind)| {
                is_right(register, *leg, formats, cost.number()) && is_filled(behind)
            })
        })
        && sheets.is_as_found(legs.len(), legs.len())
        && is_agreed(legs, sheets)
}

// Whether row 0 is a loop that gains.
pub fn is_loop<C: Kind, R: Register<Cost = C>>(register: &R, sheets: &Sheets<C>) -> bool {
    let Some((formats, behind)) = sheets.chains.chunks(ROW).next().and_then(split_row) else {
        return false;
    };
    let Some((end, once)) = formats.split_last() else {
        return false;
    };
    once.first() == Some(end)
        && is_without_repeats(once)
        && walk_number(register, formats).is_some_and(|number| number < 0)
        && is_filled(behind)
        && sheets.is_as_found(1, 0)
}

// The note of a leg after a route that wrote these formats.
fn note(formats: &[u8]) -> Note {
    match formats.len() {
        0 => Note::NoChain,
        count => Note::Chain(count),
    }
}

// Whether the legs are shown with what the rows say; open where no chains are asked for.
fn is_noted<C: Kind, R: Register<Cost = C>>(
    bay: &Bay<R>,
    legs: &[Ends],
    sheets: &Sheets<C>,
    open: bool,
) -> bool {
    legs.iter()
        .zip(sheets.chains.chunks(ROW))
        .enumerate()
        .all(|(k, (leg, row))| {
            bay.show(k)
                == Ok(Leg {
                    from: leg.from,
                    to: leg.to,
                    note: if open { Note::Open } else { note(formats(row)) },
                })
        })
}

fn print_chain(rt: &HostRuntime, formats: &[u8]) -> anyhow::Result<()> {
    print!(rt; " by")?;
    for format in formats {
        print!(rt; " {format}")?;
    }
    print!(rt; ";")?;
    Ok(())
}

// The cost of each leg, or none.
fn print_legs<C: Kind>(rt: &HostRuntime, job: &Job, sheets: &Sheets<C>) -> anyhow::Result<()> {
    for (cost, row) in sheets
        .costs
        .iter()
        .zip(sheets.chains.chunks(ROW))
        .take(job.legs.len())
    {
        let formats = formats(row);
        if formats.is_empty() {
            print!(rt; " none")?;
        } else {
            print!(rt; " {}", cost.number())?;
            if job.chains {
                print_chain(rt, formats)?;
            }
        }
    }
    println!(rt; "")?;
    Ok(())
}

// Enters the cards and books the legs; whether all is granted. Calls are given as values here.
fn set_up<C: Kind, R: Register<Cost = C>>(
    bay: &mut Bay<R>,
    job: &Job,
    sheets: &mut Sheets<C>,
) -> bool {
    let Sheets {
        table,
        costs,
        chains,
    } = sheets;
    job.cards.iter().all(|card| {
        let call = Call::Enter {
            from: card.from,
            to: card.to,
            cost: C::of_number(card.number),
        };
        bay.call(call, table, costs, chains) == Answer::Entered
    }) && job.legs.iter().enumerate().all(|(k, leg)| {
        let call = Call::Book {
            from: leg.from,
            to: leg.to,
        };
        bay.call(call, table, costs, chains) == Answer::Booked(k)
    })
}

// Does a job over an empty register, and prints what came of it, or `bad`.
fn settle<C: Kind, R: Register<Cost = C> + Drop>(
    rt: &HostRuntime,
    register: R,
    job: &Job,
) -> anyhow::Result<()> {
    let mut bay = Bay::new(register);
    let mut sheets = Sheets::<C>::new(rt.alloc(), job.n, job.legs.len().saturating_add(1))?;
    let ready = set_up(&mut bay, job, &mut sheets);
    let answer = bay.call(
        Call::Route,
        &mut sheets.table,
        &mut sheets.costs,
        &mut sheets.chains,
    );
    let looped = answer == Answer::Looped;
    let noted = ready && is_noted(&bay, job.legs, &sheets, looped);
    let register = bay.into_register();
    match answer {
        Answer::Routed(count)
            if noted && count == job.legs.len() && is_granted(&register, job.legs, &sheets) =>
            print_legs(rt, job, &sheets)?,
        Answer::Looped if noted && is_loop(&register, &sheets) => println!(rt; " loop")?,
        _ => println!(rt; " bad")?,
    }
    print_rows(rt, "rows", &register, job.n)?;
    let barred = Over::new(register, Bars { bits: 2 });
    print_rows(rt, "rows under a bar", &barred, job.n)
}

// Does a job over a matrix, and over a list with an entry for each card.
pub fn route_both<C: Kind>(rt: &HostRuntime, name: &str, job: &Job) -> anyhow::Result<()> {
    let heap = rt.alloc();
    let mut places: Vec<Option<C>> = vec![in heap; None; job.n.saturating_mul(job.n)]?;
    print!(rt; "{name}, matrix:")?;
    settle::<C, _>(rt, Matrix::new(job.n, &mut places), job)?;
    let mut entries: Vec<Option<Entry<C>>> = vec![in heap; None; job.cards.len().max(1)]?;
    print!(rt; "{name}, list:")?;
    settle::<C, _>(rt, List::new(job.n, &mut entries), job)
}

// Does a job over a list that is seen from the output side.
pub fn route_reversed<C: Kind>(rt: &HostRuntime, name: &str, job: &Job) -> anyhow::Result<()> {
    let heap = rt.alloc();
    let mut entries: Vec<Option<Entry<C>>> = vec![in heap; None; job.cards.len().max(1)]?;
    print!(rt; "{name}, from the outputs:")?;
    settle::<C, _>(rt, Over::new(List::new(job.n, &mut entries), Turned), job)
}
