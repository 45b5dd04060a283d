// The house table: the delays of our own converters, which nobody changes.
ghost use Rattle.std.specs.Prelude.{◌≡◌, ◌<◌, true, IfSome, None, nat_le, slice_index_or, unsigned_abs};
ghost use Rattle.std.specs.Option.{option_map};
ghost use Rattle.costs.specs.Delay.{most_half_lines};
ghost use Rattle.registers.specs.House.{house, house_places, house_cards, number, delayed};

use crate::judge::{judge_entry, judge_pair};
use crate::{Format, Register, RegisterFault};
use costs::Delay;

const HOUSE_SIZE: usize = 8;

// No card: the table is one flat array of numbers, so a number stands for none.
const NO: i32 = i32::MIN;

// Half lines of delay, row by row: a row for each format as `from`, a column for each as `to`.
#[rattlefmt::skip]
const HOUSE: [i32; HOUSE_SIZE * HOUSE_SIZE] = [
    NO, 8, 2, 10, NO, NO, 8, NO,
    -2, NO, NO, NO, NO, 4, 2, NO,
    2, NO, NO, NO, NO, NO, NO, NO,
    -2, NO, NO, NO, 4, 4, NO, NO,
    NO, NO, NO, -2, NO, NO, NO, NO,
    NO, 0, NO, 2, NO, NO, NO, NO,
    4, NO, NO, NO, NO, NO, NO, 0,
    NO, NO, NO, NO, 14, NO, 0, NO,
];

// The house table as a register: every pair is sealed.
#[derive(Clone, Copy, Debug)]
pub struct HouseTable;

// The number at a place of the table.
fn number_at(place: usize) -> i32
    requires { place < house_places }
    ensures { result ≡ number (slice_index_or house_cards place None) }
{
    HOUSE[place]
}

// The delay at a place of the table, which a card may have.
fn delay_at(place: usize) -> Option<Delay>
    requires { place < house_places }
    ensures value { result ≡ option_map delayed (slice_index_or house_cards place None) }
    ensures admitted { IfSome result (λ x.
        nat_le (unsigned_abs x.half_lines) most_half_lines ≡ true) }
{
    let half_lines = number_at(place);
    if half_lines == NO {
        None
    } else {
        Some(Delay { half_lines })
    }
}

impl Register for HouseTable {
    type Cost = Delay;

    ghost holds = { λ _. house };

    fn size(&self) -> usize {
        HOUSE_SIZE
    }

    fn card(&self, from: Format, to: Format) -> Option<Delay> {
        judge_pair(HOUSE_SIZE, from, to).ok()?;
        delay_at(from * HOUSE_SIZE + to)
    }

    fn enter(&mut self, from: Format, to: Format, cost: Delay) -> Result<(), RegisterFault> {
        judge_entry(HOUSE_SIZE, from, to, cost).and(Err(RegisterFault::Sealed))
    }

    fn withdraw(&mut self, from: Format, to: Format) -> Result<(), RegisterFault> {
        judge_pair(HOUSE_SIZE, from, to)?;
        Err(RegisterFault::Sealed)
    }
}
