// Forks among other calls: made one by one, and the same calls once more in a list.
use crate::dice::Dice;
use crate::kind::Kind;
use crate::play::end;
use crate::random::draw_cards;
use crate::route::{
    Sheets, formats, is_filled, is_granted, is_loop, is_right, split_row, walk_number,
};
use bay::{Answer, Bay, Call, Ends, Leg, MOST_LEGS, ROW};
use costs::{Delay, Depth};
use lent::{Entry, List, Matrix};
use registers::{Bars, Format, Over, Register, Turned};
use std::alloc::{AllocError, Global};

// One call: a card or a leg changed, a leg shown, a route, and most often a fork.
fn draw_call<C: Kind>(dice: &mut Dice, n: usize, spread: usize) -> Call<C> {
    let sort = dice.below(12);
    let a = end(dice, n);
    let b = end(dice, n);
    let c = end(dice, n);
    let cost = C::of_number(C::draw(dice, spread));
    match sort {
        0 | 1 => Call::Enter {
            from: a,
            to: b,
            cost,
        },
        2 => Call::Withdraw { from: a, to: b },
        3 | 4 => Call::Book { from: a, to: b },
        5 => Call::Strike { leg: a },
        6 => Call::Show { leg: a },
        7 | 8 => Call::Route,
        _ => Call::Fork {
            input: a,
            first: b,
            second: c,
        },
    }
}

// A card entered for some pairs, and then other calls.
fn draw_calls<C: Kind>(
    heap: Global,
    dice: &mut Dice,
    n: usize,
) -> Result<Vec<Call<C>>, AllocError> {
    let mut calls = Vec::new(heap);
    for card in &draw_cards::<C>(heap, dice, n)? {
        calls.push(Call::Enter {
            from: card.from,
            to: card.to,
            cost: C::of_number(card.number),
        })?;
    }
    let spread = dice.below(4);
    for _ in 0..14 {
        calls.push(draw_call(dice, n, spread))?;
    }
    Ok(calls)
}

// The legs of a bay with their notes.
fn shown<R: Register>(heap: Global, bay: &Bay<R>) -> Result<Vec<Leg>, AllocError> {
    (0..MOST_LEGS)
        .map_while(|leg| bay.show(leg).ok())
        .collect(heap)
}

// What the chain in a row costs, if it is one between these ends.
fn chain_number<C: Kind, R: Register<Cost = C>>(
    register: &R,
    ends: Ends,
    row: &[u8],
) -> Option<i32> {
    let (formats, behind) = split_row(row)?;
    let number = walk_number(register, formats)?;
    let right = !formats.is_empty()
        && is_filled(behind)
        && is_right(register, ends, formats, number);
    right.then_some(number)
}

// Whether rows 0 to 2 have chains by way of the split, entry 0 what they come to, and all else is as found.
fn is_split<C: Kind, R: Register<Cost = C>>(
    register: &R,
    input: Format,
    split: Format,
    outputs: [Format; 2],
    sheets: &Sheets<C>,
) -> bool {
    let [first, second] = outputs;
    let ends = [(input, split), (split, first), (split, second)];
    let total = ends
        .iter()
        .zip(sheets.chains.chunks(ROW))
        .try_fold(C::neutral(), |so_far, (ends, row)| {
            let (from, to) = *ends;
            let number = chain_number(register, Ends { from, to }, row)?;
            Some(C::combined(so_far, number))
        });
    total.is_some()
        && total == sheets.costs.first().map(|cost| cost.number())
        && sheets.is_as_found(3, 1)
}

// Whether a call left the sheets as its answer has it, for a bay that then has these legs.
fn is_left<C: Kind, R: Register<Cost = C>>(
    register: &R,
    call: &Call<C>,
    answer: Answer,
    legs: &[Ends],
    sheets: &Sheets<C>,
) -> bool {
    match (*call, answer) {
        (
            Call::Fork {
                input,
                first,
                second,
            },
            Answer::Forked(split),
        ) => { is_split(register, input, split, [first, second], sheets) }
        (Call::Route, Answer::Routed(count)) => {
            count == legs.len() && is_granted(register, legs, sheets)
        }
        (_, Answer::Looped) => is_loop(register, sheets),
        _ => sheets.is_as_found(0, 0),
    }
}

// The ends of legs.
fn ends_of(heap: Global, legs: &[Leg]) -> Result<Vec<Ends>, AllocError> {
    legs.iter()
        .map(|leg| Ends {
            from: leg.from,
            to: leg.to,
        })
        .collect(heap)
}

// The call as a line begins with it.
fn print_call<C: Kind>(rt: &HostRuntime, call: &Call<C>) -> anyhow::Result<()> {
    match *call {
        Call::Enter { from, to, cost } => {
            let number = cost.number();
            print!(rt; "  enter {from} {to} {number}:")?;
        }
        Call::Withdraw { from, to } => print!(rt; "  withdraw {from} {to}:")?,
        Call::Book { from, to } => print!(rt; "  book {from} {to}:")?,
        Call::Strike { leg } => print!(rt; "  strike {leg}:")?,
        Call::Show { leg } => print!(rt; "  show {leg}:")?,
        Call::Route => print!(rt; "  route:")?,
        Call::Fork {
            input,
            first,
            second,
        } => print!(rt; "  fork {input} {first} {second}:")?,
    }
    Ok(())
}

// The cost of each of so many legs, or none.
fn print_costs<C: Kind>(rt: &HostRuntime, legs: usize, sheets: &Sheets<C>) -> anyhow::Result<()> {
    for (cost, row) in sheets
        .costs
        .iter()
        .zip(sheets.chains.chunks(ROW))
        .take(legs)
    {
        if formats(row).is_empty() {
            print!(rt; " none")?;
        } else {
            print!(rt; " {}", cost.number())?;
        }
    }
    Ok(())
}

// The answer as a line ends with it.
fn print_told<C: Kind>(rt: &HostRuntime, answer: Answer, sheets: &Sheets<C>) -> anyhow::Result<()> {
    match answer {
        Answer::Entered | Answer::Withdrawn | Answer::Struck => print!(rt; " done")?,
        Answer::Booked(leg) => print!(rt; " {leg}")?,
        Answer::Shown(Leg { from, to, .. }) => print!(rt; " {from} {to}")?,
        Answer::Routed(legs) => print_costs(rt, legs, sheets)?,
        Answer::Forked(split) => {
            let total = sheets.costs.first().map_or(0, |cost| cost.number());
            print!(rt; " {total} by {split}")?;
        }
        Answer::Looped => print!(rt; " loop")?,
        Answer::Refused(fault) => print!(rt; " {}", fault.code())?,
    }
    Ok(())
}

// What the calls of a list were answered, and what stands in the parts of the sheets that they worked in.
#[derive(Drop)]
struct Played<C> {
    answers: Vec<Answer>,
    costs: Vec<C>,
    chains: Vec<u8>,
}

impl<C: Kind> Played<C> {
    fn new(heap: Global) -> Played<C> {
        Played {
            answers: Vec::new(heap),
            costs: Vec::new(heap),
            chains: Vec::new(heap),
        }
    }

    // One call more.
    fn add(
        &mut self,
        call: &Call<C>,
        answer: Answer,
        sheets: &Sheets<C>,
    ) -> Result<(), AllocError> {
        self.answers.push(answer)?;
        if call.takes_part() {
            self.costs.extend_from_slice(&sheets.costs)?;
            self.chains.extend_from_slice(&sheets.chains)?;
        }
        Ok(())
    }
}

// Makes the calls one by one, and prints each with its answer, or `bad`. The cards that then stand are kept in a matrix beside the bay.
fn play_singly<C: Kind, R: Register<Cost = C> + Drop>(
    rt: &HostRuntime,
    n: usize,
    register: R,
    calls: &[Call<C>],
) -> anyhow::Result<Played<C>> {
    let heap = rt.alloc();
    let mut bay = Bay::new(register);
    let mut places = places(heap, n)?;
    let mut cards = Matrix::new(n, &mut places);
    let mut played = Played::new(heap);
    for call in calls {
        let mut sheets = Sheets::<C>::new(heap, n, MOST_LEGS)?;
        let before = shown(heap, &bay)?;
        let answer = bay.call(
            *call,
            &mut sheets.table,
            &mut sheets.costs,
            &mut sheets.chains,
        );
        let legs = shown(heap, &bay)?;
        follow(&mut cards, call, answer);
        print_call(rt, call)?;
        let noted = !matches!(*call, Call::Fork { .. }) || legs.as_slice() == before.as_slice();
        if noted && is_left(&cards, call, answer, &ends_of(heap, &legs)?, &sheets) {
            print_told(rt, answer, &sheets)?;
        } else {
            print!(rt; " bad")?;
        }
        println!(rt; "")?;
        played.add(call, answer, &sheets)?;
    }
    Ok(played)
}

// Makes a change of the cards that was granted.
fn follow<C: Kind, R: Register<Cost = C>>(cards: &mut R, call: &Call<C>, answer: Answer) {
    match (*call, answer) {
        (Call::Enter { from, to, cost }, Answer::Entered) => {
            let _ = cards.enter(from, to, cost);
        }
        (Call::Withdraw { from, to }, Answer::Withdrawn) => {
            let _ = cards.withdraw(from, to);
        }
        _ => {}
    }
}

// Makes the calls in one list. Whether each is answered as it was singly, and what stands in the sheets is the same.
fn is_listed_alike<C: Kind, R: Register<Cost = C> + Drop>(
    heap: Global,
    n: usize,
    register: R,
    calls: &[Call<C>],
    singly: &Played<C>,
) -> Result<bool, AllocError> {
    let mut bay = Bay::new(register);
    let mut answers = vec![in heap; Answer::Looped; calls.len()]?;
    let mut sheets = Sheets::<C>::new(heap, n, singly.costs.len())?;
    let ran = bay.run(
        calls,
        &mut answers,
        &mut sheets.table,
        &mut sheets.costs,
        &mut sheets.chains,
    );
    Ok(
        ran.is_ok()
            && answers.as_slice() == singly.answers.as_slice()
            && sheets.chains.as_slice() == singly.chains.as_slice()
            && sheets
                .costs
                .iter()
                .zip(singly.costs.iter())
                .all(|(a, b)| a.number() == b.number()),
    )
}

// Plays calls on two registers that are alike: on the one singly, and on the other in a list.
fn play<C: Kind, R: Register<Cost = C> + Drop>(
    rt: &HostRuntime,
    n: usize,
    one: R,
    other: R,
    calls: &[Call<C>],
) -> anyhow::Result<()> {
    let singly = play_singly(rt, n, one, calls)?;
    let alike = is_listed_alike(rt.alloc(), n, other, calls, &singly)?;
    println!(rt; "  in a list: {}", if alike { "alike" } else { "bad" })?;
    Ok(())
}

// Memory for a matrix of n formats.
fn places<C: Kind>(heap: Global, n: usize) -> Result<Vec<Option<C>>, AllocError> {
    vec![in heap; None; n.saturating_mul(n)]
}

// Memory for a list of nine cards.
fn entries<C: Kind>(heap: Global) -> Result<Vec<Option<Entry<C>>>, AllocError> {
    vec![in heap; None; 9]
}

fn play_on_matrices<C: Kind>(
    rt: &HostRuntime,
    name: &str,
    n: usize,
    calls: &[Call<C>],
) -> anyhow::Result<()> {
    let (mut a, mut b) = (places(rt.alloc(), n)?, places(rt.alloc(), n)?);
    println!(rt; "{name}, matrix:")?;
    play(rt, n, Matrix::new(n, &mut a), Matrix::new(n, &mut b), calls)
}

fn play_on_lists<C: Kind>(
    rt: &HostRuntime,
    name: &str,
    n: usize,
    calls: &[Call<C>],
) -> anyhow::Result<()> {
    let (mut a, mut b) = (entries(rt.alloc())?, entries(rt.alloc())?);
    println!(rt; "{name}, list:")?;
    play(rt, n, List::new(n, &mut a), List::new(n, &mut b), calls)
}

// Under a bar on format 1.
fn play_under_bars<C: Kind>(
    rt: &HostRuntime,
    name: &str,
    n: usize,
    calls: &[Call<C>],
) -> anyhow::Result<()> {
    let (mut a, mut b) = (places(rt.alloc(), n)?, places(rt.alloc(), n)?);
    println!(rt; "{name}, under a bar:")?;
    let bars = Bars { bits: 2 };
    let one = Over::new(Matrix::new(n, &mut a), bars);
    let other = Over::new(Matrix::new(n, &mut b), bars);
    play(rt, n, one, other, calls)
}

// Turned round.
fn play_from_outputs<C: Kind>(
    rt: &HostRuntime,
    name: &str,
    n: usize,
    calls: &[Call<C>],
) -> anyhow::Result<()> {
    let (mut a, mut b) = (entries(rt.alloc())?, entries(rt.alloc())?);
    println!(rt; "{name}, from the outputs:")?;
    let one = Over::new(List::new(n, &mut a), Turned);
    let other = Over::new(List::new(n, &mut b), Turned);
    play(rt, n, one, other, calls)
}

// The same calls on each sort of register.
fn trial<C: Kind>(rt: &HostRuntime, name: &str, dice: &mut Dice) -> anyhow::Result<()> {
    let n = dice.below(4).saturating_add(3);
    let calls = draw_calls::<C>(rt.alloc(), dice, n)?;
    play_on_matrices(rt, name, n, &calls)?;
    play_on_lists(rt, name, n, &calls)?;
    play_under_bars(rt, name, n, &calls)?;
    play_from_outputs(rt, name, n, &calls)
}

pub fn fork_trials(rt: &HostRuntime) -> anyhow::Result<()> {
    let mut dice = Dice::new(35);
    for number in 0..4 {
        let name = format!(in rt.alloc(); "forks of delays {number}")?;
        trial::<Delay>(rt, name.as_str(), &mut dice)?;
        let name = format!(in rt.alloc(); "forks of depths {number}")?;
        trial::<Depth>(rt, name.as_str(), &mut dice)?;
    }
    Ok(())
}
