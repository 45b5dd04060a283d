// A customer's table as a register.
ghost use Rattle.tables.specs.Tables.{Gaining, MadeOf, table_of};

use crate::judge::judge;
use crate::numbers::{Numbers, PLACES, SIZE};
use costs::Delay;
use registers::{Format, Register, RegisterFault, judge_entry, judge_pair};

// The table that a place holds; every pair is sealed. It trusts nobody: made of a place that the check would refuse, it has no
// card.
#[derive(Clone, Copy)]
pub struct LoadedTable<'a> {
    table: Numbers<'a>,
    // no closed walk undercuts the unit
    ghost no_loop: { Gaining table.numbers.now → ⊥ },
}

impl<'a> LoadedTable<'a> {
    // The table in a place, whatever it holds.
    pub fn new(place: &'a [i32]) -> LoadedTable<'a>
        ensures { MadeOf place.now (table_of result.table.numbers.now) }
    {
        match judge(place, PLACES) {
            Ok(()) => LoadedTable {
                table: Numbers { numbers: place },
            },
            Err(_) => LoadedTable {
                table: Numbers {
                    numbers: &place[..0],
                },
            },
        }
    }
}

impl Register for LoadedTable<'_> {
    type Cost = Delay;

    ghost holds = { λ t. table_of t.table.numbers.now };

    fn size(&self) -> usize {
        self.table.size()
    }

    fn card(&self, from: Format, to: Format) -> Option<Delay> {
        self.table.card(from, to)
    }

    fn enter(&mut self, from: Format, to: Format, cost: Delay) -> Result<(), RegisterFault> {
        judge_entry(SIZE, from, to, cost).and(Err(RegisterFault::Sealed))
    }

    fn withdraw(&mut self, from: Format, to: Format) -> Result<(), RegisterFault> {
        judge_pair(SIZE, from, to)?;
        Err(RegisterFault::Sealed)
    }
}
