// Trials of the registers and of the bay. tools/trials.py makes what must come out, from a model of its own.
#![tactic(auto)]

mod dice;
mod fixed;
mod forks;
mod kind;
mod loaded;
mod play;
mod random;
mod route;
mod rows;
mod short;

use crate::dice::Dice;
use crate::fixed::fixed_cases;
use crate::forks::fork_trials;
use crate::loaded::customer_tables;
use crate::play::{Change, play, play_all};
use crate::random::random_trials;
use crate::rows::house_rows;
use crate::short::short_memory;
use costs::Delay;
use lent::{Entry, List, Matrix};

fn play_matrix(rt: &HostRuntime, dice: &mut Dice) -> anyhow::Result<()> {
    let mut places = [None; 25];
    play_all(rt, "matrix", Matrix::new(5, &mut places), dice)
}

fn play_list(rt: &HostRuntime, dice: &mut Dice) -> anyhow::Result<()> {
    let mut entries = [None; 6];
    play_all(rt, "list", List::new(5, &mut entries), dice)
}

// A matrix that is told so many formats and has so few places.
fn play_ill_matrix(rt: &HostRuntime, n: usize, dice: &mut Dice) -> anyhow::Result<()> {
    let mut places: [Option<Delay>; 24] = [Some(Delay { half_lines: 1 }); 24];
    let check = Change(Matrix::check(n, &places));
    println!(rt; "matrix of {n} in 24 places: {check}")?;
    play(
        rt,
        "calls on it",
        &mut Matrix::new(n, &mut places),
        dice,
        50,
    )
}

fn play_ill_list(rt: &HostRuntime, n: usize, dice: &mut Dice) -> anyhow::Result<()> {
    let mut entries: [Option<Entry<Delay>>; 0] = [];
    let check = Change(List::check(n, &entries));
    println!(rt; "list of {n} without entries: {check}")?;
    play(rt, "calls on it", &mut List::new(n, &mut entries), dice, 50)
}

fn play_registers(rt: &HostRuntime) -> anyhow::Result<()> {
    let mut dice = Dice::new(1);
    play_matrix(rt, &mut dice)?;
    play_list(rt, &mut dice)?;
    play_ill_matrix(rt, 5, &mut dice)?;
    play_ill_matrix(rt, 1, &mut dice)?;
    play_ill_matrix(rt, 65, &mut dice)?;
    play_ill_list(rt, 5, &mut dice)?;
    play_ill_list(rt, 1, &mut dice)
}

fn run(rt: &HostRuntime) -> anyhow::Result<()> {
    play_registers(rt)?;
    random_trials(rt)?;
    fixed_cases(rt)?;
    house_rows(rt)?;
    short_memory(rt)?;
    customer_tables(rt)?;
    fork_trials(rt)
}

fn main(rt: HostRuntime) -> anyhow::Result<()> {
    run(&rt)
}
