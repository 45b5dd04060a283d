// House tables of a customer's: checks of them, and routes over them.
use crate::dice::Dice;
use bay::{Bay, Cell, ROW};
use costs::Delay;
use registers::{Bars, Format, Over, Turned};
use tables::{
    Gainless, LoadedTable, NO_CARD, PLACES, check_own_table, check_table, route_gainless,
};

// What a place holds before a check.
const BEFORE: i32 = 9;

// Checks numbers into a place of so much room, and prints what is answered, and whether the place is not as it must be.
fn print_check(rt: &HostRuntime, numbers: &[i32], room: usize) -> anyhow::Result<()> {
    let mut place = vec![in rt.alloc(); BEFORE; room]?;
    let answer = check_table(numbers, &mut place);
    let as_it_must_be = match answer {
        Ok(()) => place.as_slice() == numbers,
        Err(_) => place.iter().all(|number| *number == BEFORE),
    };
    match answer {
        Ok(()) => print!(rt; " passes")?,
        Err(fault) => print!(rt; " {}", fault.code())?,
    }
    if !as_it_must_be {
        print!(rt; " and the place is wrong")?;
    }
    Ok(())
}

// Our own numbers, with another one at an index.
fn own_but(index: usize, number: i32) -> [i32; PLACES] {
    let mut numbers = [NO_CARD; PLACES];
    let _ = check_own_table(&mut numbers);
    if index < PLACES {
        numbers[index] = number;
    }
    numbers
}

// Our own table with one number changed: at each index to one half line, no card, and to what lies at the bounds.
fn each_index(rt: &HostRuntime) -> anyhow::Result<()> {
    for index in 0..PLACES {
        print!(rt; "index {index}:")?;
        for number in [
            1,
            NO_CARD,
            2_000_000,
            2_000_001,
            -2_000_000,
            -2_000_001,
            i32::MAX,
            NO_CARD + 1,
        ] {
            print_check(rt, &own_but(index, number), PLACES)?;
        }
        println!(rt; "")?;
    }
    Ok(())
}

// One number less than a table has.
fn all_but_one(numbers: &[i32]) -> &[i32] {
    numbers.get(..63).unwrap_or(numbers)
}

// Numbers of other lengths, and places of other lengths, also where a number or a loop would be told too.
fn lengths(rt: &HostRuntime) -> anyhow::Result<()> {
    let right = own_but(PLACES, 0);
    let wrong = own_but(0, 0);
    let gaining = own_but(62, -1);
    let mut longer = vec![in rt.alloc(); NO_CARD; PLACES + 1]?;
    longer[..PLACES].copy_from_slice(&right);
    for room in [0, 63, 64, 65] {
        print!(rt; "room {room}:")?;
        print_check(rt, &[], room)?;
        print_check(rt, all_but_one(&right), room)?;
        print_check(rt, &right, room)?;
        print_check(rt, &longer, room)?;
        print_check(rt, &wrong, room)?;
        print_check(rt, &gaining, room)?;
        println!(rt; "")?;
    }
    for room in [0, 63, 64, 65] {
        let mut place = vec![in rt.alloc(); BEFORE; room]?;
        match check_own_table(&mut place) {
            Ok(()) => println!(rt; "our own in {room}: passes")?,
            Err(fault) => println!(rt; "our own in {room}: {}", fault.code())?,
        }
    }
    Ok(())
}

// Two numbers that may not stand where they do: the first is told.
fn two_at_fault(rt: &HostRuntime) -> anyhow::Result<()> {
    let mut numbers = own_but(63, 0);
    numbers[17] = 2_000_001;
    print!(rt; "two at fault:")?;
    print_check(rt, &numbers, PLACES)?;
    numbers[62] = -1;
    print_check(rt, &numbers, PLACES)?;
    println!(rt; "")?;
    Ok(())
}

// A leg's cost over a register, or that it has no chain.
fn print_leg<R: Gainless<Cost = Delay> + Drop>(
    rt: &HostRuntime,
    register: R,
    from: Format,
    to: Format,
) -> anyhow::Result<()> {
    let mut bay = Bay::new(register);
    let mut table = [Cell::empty(); PLACES];
    let mut costs = [Delay { half_lines: 0 }];
    let mut chain = [0; ROW];
    let _ = bay.book(from, to);
    match route_gainless(&mut bay, &mut table, &mut costs, &mut chain) {
        Ok(_) if chain[0] == 0 => print!(rt; " none")?,
        Ok(_) => print!(rt; " {}", costs[0].half_lines)?,
        Err(fault) => print!(rt; " {}", fault.code())?,
    }
    Ok(())
}

// A table with some cards.
fn drawn(dice: &mut Dice) -> [i32; PLACES] {
    let mut numbers = [NO_CARD; PLACES];
    let density = dice.below(5).saturating_add(1);
    let least = dice.number(-2, 3);
    for index in 0..PLACES {
        if index / 8 != index % 8 && dice.below(8) < density {
            numbers[index] = dice.number(least, 12);
        }
    }
    if dice.below(10) == 0 {
        numbers[17] = 2_000_001;
    }
    numbers
}

// A bar on one format.
fn bar(format: Format) -> Bars {
    let bits = if format < 8 { 1 << format } else { 0 };
    Bars { bits }
}

// A leg over a table: bare, under a bar, and turned round under two.
fn print_legs(rt: &HostRuntime, table: LoadedTable<'_>, dice: &mut Dice) -> anyhow::Result<()> {
    let from = dice.below(8);
    let to = dice.below(8);
    let bars = bar(dice.below(8));
    print_leg(rt, table, from, to)?;
    print_leg(rt, Over::new(table, bars), from, to)?;
    let turned = Over::new(Over::new(table, bars), Turned);
    print_leg(rt, Over::new(turned, bar(1)), from, to)
}

// Tables that are drawn, with two legs over each. One that would not pass has no card.
fn drawn_tables(rt: &HostRuntime) -> anyhow::Result<()> {
    let mut dice = Dice::new(11);
    for number in 0..60 {
        let numbers = drawn(&mut dice);
        print!(rt; "table {number}:")?;
        print_check(rt, &numbers, PLACES)?;
        let table = LoadedTable::new(&numbers);
        print_legs(rt, table, &mut dice)?;
        print_legs(rt, table, &mut dice)?;
        println!(rt; "")?;
    }
    Ok(())
}

// A place that is too short has no card, whatever it holds.
fn short_place(rt: &HostRuntime) -> anyhow::Result<()> {
    let own = own_but(PLACES, 0);
    print!(rt; "legs over a place of 64 and of 63:")?;
    print_leg(rt, LoadedTable::new(&own), 0, 1)?;
    print_leg(rt, LoadedTable::new(all_but_one(&own)), 0, 1)?;
    println!(rt; "")?;
    Ok(())
}

pub fn customer_tables(rt: &HostRuntime) -> anyhow::Result<()> {
    each_index(rt)?;
    lengths(rt)?;
    two_at_fault(rt)?;
    drawn_tables(rt)?;
    short_place(rt)
}
