// Numbers as a register, whether or not they would pass the check.
ghost use Rattle.std.specs.Prelude.{◌≡◌, Decides, IfSome, true};
ghost use Rattle.costs.specs.Kind.{admits};
ghost use Rattle.costs.specs.Kinds.{delays};
ghost use Rattle.tables.specs.Tables.{Gaining, Suits, card_at, table_of};

use bay::{Cell, rows_passed};
use costs::{Cost, Delay};
use registers::{Format, Register, RegisterFault, judge_entry, judge_pair};

// A table has so many formats.
pub(crate) const SIZE: usize = 8;

// And so many numbers, one for each pair.
pub const PLACES: usize = SIZE * SIZE;

// The number that stands for no card.
pub const NO_CARD: i32 = i32::MIN;

// Half lines of delay, row by row: a row for each format as `from`, a column for each as `to`. What is not there is no card.
#[derive(Clone, Copy)]
pub(crate) struct Numbers<'a> {
    pub(crate) numbers: &'a [i32],
}

impl Numbers<'_> {
    // The card at an index.
    fn card_at(&self, index: usize) -> Option<Delay>
        ensures value { result ≡ card_at self.now.numbers.now index }
        ensures admitted { IfSome result (λ x. admits delays x ≡ true) }
    {
        let half_lines = *self.numbers.get(index)?;
        Some(Delay { half_lines }).filter(|delay| delay.admitted())
    }

    // Whether a closed walk undercuts the unit: the look that a route has for it.
    pub(crate) fn gains(&self) -> bool
        ensures { Decides result (Gaining self.now.numbers.now) }
    {
        let mut cells = [Cell::empty(); PLACES];
        rows_passed(self, &mut cells).is_err()
    }
}

impl Register for Numbers<'_> {
    type Cost = Delay;

    ghost holds = { λ t. table_of t.numbers.now };

    fn size(&self) -> usize {
        SIZE
    }

    fn card(&self, from: Format, to: Format) -> Option<Delay> {
        judge_pair(SIZE, from, to).ok()?;
        self.card_at(from * SIZE + to)
    }

    fn enter(&mut self, from: Format, to: Format, cost: Delay) -> Result<(), RegisterFault> {
        judge_entry(SIZE, from, to, cost).and(Err(RegisterFault::Sealed))
    }

    fn withdraw(&mut self, from: Format, to: Format) -> Result<(), RegisterFault> {
        judge_pair(SIZE, from, to)?;
        Err(RegisterFault::Sealed)
    }
}

// Whether a number may stand at an index: the one for no card, or elsewhere than on the diagonal a delay that a card may have.
pub(crate) fn suits(index: usize, number: i32) -> bool
    ensures { Decides result (Suits index number) }
{
    let delay = Delay { half_lines: number };
    number == NO_CARD || (index / SIZE != index % SIZE && delay.admitted())
}
