// Plays pseudo-random calls on a register, and prints every tenth with a checksum over all so far.
use crate::dice::Dice;
use costs::Delay;
use registers::{Bars, Code, Over, Register, RegisterFault, Turned};
use std::alloc::{AllocError, Global};
use std::fmt;

// What came of a change. It is printed without the layer, since all that is played on are registers.
#[derive(Drop)]
pub struct Change(pub Result<(), RegisterFault>);

impl fmt::Display for Change {
    fn fmt<W: fmt::Write>(&self, f: &mut fmt::Formatter<W>) -> fmt::Result {
        match self.0 {
            Ok(()) => write!(f, "ok"),
            Err(fault) => {
                let Code { number, part, .. } = fault.code();
                write!(f, "{number}.{part}")
            }
        }
    }
}

// A 32-bit checksum over text.
#[derive(Drop)]
struct Checksum {
    value: u32,
}

impl Checksum {
    fn add(&mut self, text: &str) {
        self.value = text.bytes().fold(self.value, |value, byte| {
            (value ^ u32::from(byte)).wrapping_mul(16_777_619)
        });
    }
}

// Half lines of a card: often around the bounds.
fn half_lines(dice: &mut Dice) -> i32 {
    match dice.below(12) {
        0 => 2_000_000,
        1 => 2_000_001,
        2 => -2_000_000,
        3 => -2_000_001,
        4 => i32::MAX,
        5 => i32::MIN,
        _ => dice.number(-9, 19),
    }
}

// A format below n, and at times n or n + 1.
pub fn end(dice: &mut Dice, n: usize) -> usize {
    if dice.below(8) == 0 {
        dice.below(n.saturating_add(2))
    } else {
        dice.below(n)
    }
}

// One call, as a line of text with its answer.
fn call<R: Register<Cost = Delay>>(
    heap: Global,
    register: &mut R,
    dice: &mut Dice,
) -> Result<String, AllocError> {
    let sort = dice.below(4);
    let from = end(dice, register.size());
    let to = end(dice, register.size());
    let half_lines = half_lines(dice);
    match sort {
        0 | 1 => {
            let change = Change(register.enter(from, to, Delay { half_lines }));
            format!(in heap; "enter {from} {to} {half_lines} {change}")
        }
        2 => {
            let change = Change(register.withdraw(from, to));
            format!(in heap; "withdraw {from} {to} {change}")
        }
        _ => match register.card(from, to) {
            Some(card) => {
                let half_lines = card.half_lines;
                format!(in heap; "card {from} {to} {half_lines}")
            }
            None => format!(in heap; "card {from} {to} -"),
        },
    }
}

// So many calls.
pub fn play<R: Register<Cost = Delay>>(
    rt: &HostRuntime,
    name: &str,
    register: &mut R,
    dice: &mut Dice,
    calls: usize,
) -> anyhow::Result<()> {
    println!(rt; "{name}:")?;
    let mut checksum = Checksum {
        value: 2_166_136_261,
    };
    for i in 0..calls {
        let line = call(rt.alloc(), register, dice)?;
        checksum.add(line.as_str());
        if i % 10 == 9 {
            let value = checksum.value;
            println!(rt; "{line} #{value}")?;
        }
    }
    Ok(())
}

// Calls on the register, then under one bar and under two, turned round over these and under a third bar over that, and on the
// register again.
pub fn play_all<R: Register<Cost = Delay> + Drop>(
    rt: &HostRuntime,
    name: &str,
    mut register: R,
    dice: &mut Dice,
) -> anyhow::Result<()> {
    play(rt, name, &mut register, dice, 400)?;
    let mut barred = Over::new(register, Bars { bits: 4 });
    play(rt, "under a bar", &mut barred, dice, 150)?;
    let far = Bars {
        bits: 9_223_372_036_854_775_825,
    };
    let mut piled = Over::new(barred, far);
    play(rt, "under two bars", &mut piled, dice, 100)?;
    let mut turned = Over::new(piled, Turned);
    play(rt, "turned round", &mut turned, dice, 100)?;
    let mut topped = Over::new(turned, Bars { bits: 8 });
    play(rt, "turned round under a bar", &mut topped, dice, 50)?;
    let mut bare = topped.into_below().into_below().into_below().into_below();
    play(rt, "bare again", &mut bare, dice, 50)
}
