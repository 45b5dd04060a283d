// Cases that are known to be hard, and refusals of the bay.
use crate::kind::Kind;
use crate::route::{Card, Job, route_both};
use bay::{Bay, BayFault, Cell, Ends, Leg, Note};
use costs::{Delay, Depth};
use lent::Matrix;
use registers::Register;
use std::alloc::{AllocError, Global};

fn card(from: usize, to: usize, number: i32) -> Card {
    Card { from, to, number }
}

fn leg(from: usize, to: usize) -> Ends {
    Ends { from, to }
}

fn show<'a, C: Kind>(
    rt: &HostRuntime,
    name: &str,
    n: usize,
    cards: &'a [Card],
    legs: &'a [Ends],
) -> anyhow::Result<()> {
    route_both::<C>(
        rt,
        name,
        &Job {
            n,
            cards,
            legs,
            chains: true,
        },
    )
}

fn ties(rt: &HostRuntime) -> anyhow::Result<()> {
    show::<Delay>(
        rt,
        "a tie with a loop of delays",
        4,
        &[card(0, 2, 1), card(0, 3, 1), card(2, 1, 1), card(3, 0, -1)],
        &[leg(0, 1)],
    )?;
    show::<Depth>(
        rt,
        "a tie with a loop of depths",
        4,
        &[card(1, 2, 2), card(1, 3, 1), card(2, 0, 1), card(3, 1, 2)],
        &[leg(1, 0)],
    )?;
    show::<Delay>(
        rt,
        "a loop of no delay",
        3,
        &[card(0, 1, 0), card(1, 0, 0), card(0, 2, 5)],
        &[leg(0, 2), leg(1, 2)],
    )
}

fn loops(rt: &HostRuntime) -> anyhow::Result<()> {
    show::<Delay>(
        rt,
        "legs with equal ends at a loop of no delay",
        3,
        &[card(0, 1, 0), card(1, 0, 0), card(0, 2, 5)],
        &[leg(0, 0), leg(1, 0), leg(2, 2)],
    )?;
    show::<Depth>(
        rt,
        "a leg with equal ends beside another",
        3,
        &[card(0, 1, 10), card(1, 2, 8)],
        &[leg(2, 2), leg(0, 2)],
    )?;
    show::<Delay>(
        rt,
        "a loop away from a leg with equal ends",
        4,
        &[card(2, 3, -1), card(3, 2, 0)],
        &[leg(0, 0)],
    )?;
    show::<Delay>(
        rt,
        "a loop away from the leg",
        4,
        &[card(0, 1, 1), card(2, 3, -1), card(3, 2, 0)],
        &[leg(0, 1)],
    )?;
    show::<Delay>(
        rt,
        "a loop of three that gains",
        3,
        &[card(0, 1, 2), card(1, 2, -4), card(2, 0, 1)],
        &[leg(0, 2)],
    )?;
    show::<Delay>(
        rt,
        "a loop of three that does not",
        3,
        &[card(0, 1, 2), card(1, 2, -4), card(2, 0, 2)],
        &[leg(0, 2), leg(1, 0), leg(2, 1)],
    )?;
    show::<Delay>(
        rt,
        "a loop beside one of no delay",
        3,
        &[card(0, 2, -1), card(1, 2, -1), card(2, 0, 1), card(2, 1, 0)],
        &[leg(0, 1)],
    )
}

fn small(rt: &HostRuntime) -> anyhow::Result<()> {
    show::<Depth>(
        rt,
        "a deeper detour",
        3,
        &[card(0, 1, 10), card(1, 2, 8), card(0, 2, 6)],
        &[leg(0, 2)],
    )?;
    show::<Delay>(
        rt,
        "two formats",
        2,
        &[card(0, 1, 2_000_000)],
        &[leg(0, 1), leg(1, 0)],
    )?;
    show::<Delay>(
        rt,
        "two formats in a loop",
        2,
        &[card(0, 1, 2_000_000), card(1, 0, -2_000_000)],
        &[leg(0, 1), leg(1, 0)],
    )?;
    show::<Delay>(rt, "no card", 2, &[], &[leg(1, 0)])?;
    show::<Depth>(
        rt,
        "one card",
        2,
        &[card(1, 0, 16)],
        &[leg(1, 0), leg(0, 1)],
    )
}

// A card for every pair of 64 formats, at one number from each format to the next and at another elsewhere.
fn complete(heap: Global, along: i32, elsewhere: i32) -> Result<Vec<Card>, AllocError> {
    let mut cards = Vec::new(heap);
    for from in 0..64usize {
        for to in (0..64).filter(|to| *to != from) {
            let number = if to == from + 1 { along } else { elsewhere };
            cards.push(card(from, to, number))?;
        }
    }
    Ok(cards)
}

fn large(rt: &HostRuntime) -> anyhow::Result<()> {
    let flat = complete(rt.alloc(), 0, 1)?;
    show::<Delay>(
        rt,
        "a long way round",
        64,
        &flat,
        &[leg(0, 63), leg(63, 0), leg(60, 63)],
    )?;
    let steep = complete(rt.alloc(), -2_000_000, 2_000_000)?;
    show::<Delay>(rt, "a loop of most formats", 64, &steep, &[leg(0, 63)])?;
    let deep = complete(rt.alloc(), 16, 15)?;
    show::<Depth>(rt, "a long deep way", 64, &deep, &[leg(0, 63), leg(5, 9)])
}

fn print_fault(rt: &HostRuntime, what: &str, fault: BayFault) -> anyhow::Result<()> {
    println!(rt; "{what}: {}", fault.code())?;
    Ok(())
}

// Prints a call's fault, or the number that it answered.
fn print_answer(
    rt: &HostRuntime,
    what: &str,
    answer: Result<usize, BayFault>,
) -> anyhow::Result<()> {
    match answer {
        Ok(number) => println!(rt; "{what}: {number}")?,
        Err(fault) => print_fault(rt, what, fault)?,
    }
    Ok(())
}

// A route in so many cells, entries and bytes.
fn route_in<R: Register<Cost = Delay>>(
    rt: &HostRuntime,
    what: &str,
    bay: &mut Bay<R>,
    cells: usize,
    entries: usize,
    bytes: usize,
) -> anyhow::Result<()> {
    let heap = rt.alloc();
    let mut table = vec![in heap; Cell::empty(); cells]?;
    let mut costs = vec![in heap; Delay { half_lines: 0 }; entries]?;
    let mut chains = vec![in heap; 0; bytes]?;
    print_answer(rt, what, bay.route(&mut table, &mut costs, &mut chains))
}

// 33 legs over a register of three formats, and routes with too little room.
fn refusals(rt: &HostRuntime) -> anyhow::Result<()> {
    let mut places = [None; 9];
    let mut bay = Bay::new(Matrix::new(3, &mut places));
    route_in(rt, "no legs", &mut bay, 0, 0, 0)?;
    print_answer(rt, "book 3 0", bay.book(3, 0))?;
    print_answer(rt, "book 0 3", bay.book(0, 3))?;
    print_answer(rt, "book 3 3", bay.book(3, 3))?;
    print_answer(rt, "book 1 1", bay.book(1, 1))?;
    for _ in 0..31 {
        let _ = bay.book(0, 1);
    }
    print_answer(rt, "leg 33", bay.book(1, 2))?;
    route_in(rt, "short table", &mut bay, 8, 31, 2111)?;
    route_in(rt, "short costs", &mut bay, 9, 31, 2111)?;
    route_in(rt, "short chains", &mut bay, 9, 32, 2111)?;
    route_in(rt, "all legs", &mut bay, 9, 32, 2112)
}

// Strikes and shows of legs, and faults of the register below.
fn legs(rt: &HostRuntime) -> anyhow::Result<()> {
    let mut places = [None; 9];
    let mut bay = Bay::new(Matrix::new(3, &mut places));
    if let Err(fault) = bay.strike(0) {
        print_fault(rt, "strike 0", fault)?;
    }
    print_answer(rt, "book 2 1", bay.book(2, 1))?;
    if let Err(fault) = bay.show(1) {
        print_fault(rt, "show 1", fault)?;
    }
    if let Err(fault) = bay.withdraw(0, 1) {
        print_fault(rt, "withdraw 0 1", fault)?;
    }
    if let Err(fault) = bay.enter(
        0,
        1,
        Delay {
            half_lines: 2_000_001,
        },
    ) {
        print_fault(rt, "enter 0 1 2000001", fault)?;
    }
    Ok(())
}

// Leg k, with its note.
fn print_leg<R: Register<Cost = Delay>>(
    rt: &HostRuntime,
    bay: &Bay<R>,
    k: usize,
) -> anyhow::Result<()> {
    match bay.show(k) {
        Ok(Leg { from, to, note }) => match note {
            Note::Open => println!(rt; "leg {k} {from} {to}: open")?,
            Note::NoChain => println!(rt; "leg {k} {from} {to}: no chain")?,
            Note::Chain(count) => println!(rt; "leg {k} {from} {to}: {count} formats")?,
        },
        Err(fault) => print_fault(rt, "show", fault)?,
    }
    Ok(())
}

// Routes, and prints leg 0 before and after.
fn route_and_print<R: Register<Cost = Delay>>(
    rt: &HostRuntime,
    bay: &mut Bay<R>,
) -> anyhow::Result<()> {
    print_leg(rt, bay, 0)?;
    route_in(rt, "route", bay, 9, 2, 132)?;
    print_leg(rt, bay, 0)
}

// Notes after routes and changes, and what a strike leaves.
fn notes(rt: &HostRuntime) -> anyhow::Result<()> {
    let mut places = [None; 9];
    let mut bay = Bay::new(Matrix::new(3, &mut places));
    let _ = bay.book(2, 1);
    let _ = bay.book(0, 1);
    let _ = bay.enter(2, 1, Delay { half_lines: 4 });
    route_and_print(rt, &mut bay)?;
    let _ = bay.enter(
        2,
        1,
        Delay {
            half_lines: -2_000_001,
        },
    );
    print_leg(rt, &bay, 0)?;
    let _ = bay.withdraw(2, 1);
    route_and_print(rt, &mut bay)?;
    let _ = bay.enter(2, 0, Delay { half_lines: 3 });
    let _ = bay.enter(0, 1, Delay { half_lines: 3 });
    route_and_print(rt, &mut bay)?;
    let _ = bay.strike(0);
    print_leg(rt, &bay, 0)?;
    print_leg(rt, &bay, 1)
}

// A fork in so many cells, entries and bytes.
fn fork_in<R: Register<Cost = Delay>>(
    rt: &HostRuntime,
    what: &str,
    bay: &Bay<R>,
    formats: [usize; 3],
    room: [usize; 3],
) -> anyhow::Result<()> {
    let heap = rt.alloc();
    let [input, first, second] = formats;
    let [cells, entries, bytes] = room;
    let mut table = vec![in heap; Cell::empty(); cells]?;
    let mut costs = vec![in heap; Delay { half_lines: 0 }; entries]?;
    let mut chains = vec![in heap; 0; bytes]?;
    match bay.fork(input, first, second, &mut table, &mut costs, &mut chains) {
        Ok(split) => {
            let total = costs.first().map_or(0, |cost| cost.half_lines);
            println!(rt; "{what}: {split} at {total}")?;
        }
        Err(fault) => print_fault(rt, what, fault)?,
    }
    Ok(())
}

// Forks that are refused, in the order of their causes, and two that are not.
fn forks(rt: &HostRuntime) -> anyhow::Result<()> {
    let enough = [9, 1, 198];
    let mut places = [None; 9];
    let mut bay = Bay::new(Matrix::new(3, &mut places));
    fork_in(rt, "fork 3 3 3", &bay, [3, 3, 3], [0, 0, 0])?;
    fork_in(rt, "fork 0 3 3", &bay, [0, 3, 3], [0, 0, 0])?;
    fork_in(rt, "fork 0 0 3", &bay, [0, 0, 3], [0, 0, 0])?;
    fork_in(rt, "fork in a short table", &bay, [0, 1, 2], [8, 0, 197])?;
    fork_in(rt, "fork with no cost", &bay, [0, 1, 2], [9, 0, 197])?;
    fork_in(rt, "fork with short chains", &bay, [0, 1, 2], [9, 1, 197])?;
    let _ = bay.enter(0, 1, Delay { half_lines: 5 });
    fork_in(rt, "fork 0 1 2", &bay, [0, 1, 2], enough)?;
    fork_in(rt, "fork 0 2 1", &bay, [0, 2, 1], enough)?;
    let _ = bay.enter(0, 2, Delay { half_lines: 7 });
    fork_in(rt, "fork 0 1 2", &bay, [0, 1, 2], enough)?;
    fork_in(rt, "fork 2 2 2", &bay, [2, 2, 2], enough)?;
    let _ = bay.enter(1, 0, Delay { half_lines: -6 });
    fork_in(rt, "fork 0 1 2", &bay, [0, 1, 2], enough)
}

pub fn fixed_cases(rt: &HostRuntime) -> anyhow::Result<()> {
    ties(rt)?;
    loops(rt)?;
    small(rt)?;
    large(rt)?;
    refusals(rt)?;
    legs(rt)?;
    notes(rt)?;
    forks(rt)
}
