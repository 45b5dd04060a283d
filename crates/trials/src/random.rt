// Pseudo-random jobs of a few formats.
use crate::dice::Dice;
use crate::kind::Kind;
use crate::route::{Card, Job, route_both, route_reversed};
use bay::Ends;
use costs::{Delay, Depth};
use std::alloc::{AllocError, Global};

// Cards for some pairs, from one in six to all.
pub fn draw_cards<C: Kind>(
    heap: Global,
    dice: &mut Dice,
    n: usize,
) -> Result<Vec<Card>, AllocError> {
    let density = dice.below(6).saturating_add(1);
    let spread = dice.below(4);
    let mut cards = Vec::new(heap);
    for from in 0..n {
        for to in 0..n {
            if from != to && dice.below(6) < density {
                let number = C::draw(dice, spread);
                cards.push(Card { from, to, number })?;
            }
        }
    }
    Ok(cards)
}

fn draw_leg(dice: &mut Dice, n: usize) -> Ends {
    let from = dice.below(n);
    let to = dice.below(n);
    Ends { from, to }
}

// One to five legs.
fn draw_legs(heap: Global, dice: &mut Dice, n: usize) -> Result<Vec<Ends>, AllocError> {
    (0..dice.below(5).saturating_add(1))
        .map(|_| draw_leg(dice, n))
        .collect(heap)
}

fn trial<C: Kind>(rt: &HostRuntime, name: &str, dice: &mut Dice) -> anyhow::Result<()> {
    let n = dice.below(6).saturating_add(2);
    let cards = draw_cards::<C>(rt.alloc(), dice, n)?;
    let legs = draw_legs(rt.alloc(), dice, n)?;
    let job = Job {
        n,
        cards: &cards,
        legs: &legs,
        chains: false,
    };
    route_both::<C>(rt, name, &job)?;
    // The same cards and legs, as they look from the output side: each leg costs the same there.
    let cards = cards
        .iter()
        .map(Card::reversed)
        .collect::<Vec<_>>(rt.alloc())?;
    let legs = legs
        .iter()
        .map(|leg| Ends {
            from: leg.to,
            to: leg.from,
        })
        .collect::<Vec<_>>(rt.alloc())?;
    let turned = Job {
        cards: &cards,
        legs: &legs,
        ..job
    };
    route_reversed::<C>(rt, name, &turned)
}

pub fn random_trials(rt: &HostRuntime) -> anyhow::Result<()> {
    let mut dice = Dice::new(7);
    for number in 0..30 {
        trial::<Delay>(
            rt,
            format!(in rt.alloc(); "delay {number}")?.as_str(),
            &mut dice,
        )?;
        trial::<Depth>(
            rt,
            format!(in rt.alloc(); "depth {number}")?.as_str(),
            &mut dice,
        )?;
    }
    Ok(())
}
