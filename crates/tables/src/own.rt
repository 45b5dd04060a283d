// Our own table, as a customer's.
ghost use Rattle.std.specs.Prelude.{◌≡◌, ◌<◌, length, Ok, slice_index_or};
ghost use Rattle.registers.specs.Fault.{after};
ghost use Rattle.registers.specs.House.{house_places};
ghost use Rattle.tables.specs.Faults.{table_refusal};
ghost use Rattle.tables.specs.Tables.{TableVerdict, no_card, own_numbers};

use crate::fault::TableFault;
use crate::judge::check_table;
use crate::numbers::{NO_CARD, PLACES, SIZE};
use registers::{HouseTable, Register};

// The number of our own table at an index.
fn own_number(index: usize) -> i32
    requires { index < house_places }
    ensures { result ≡ slice_index_or own_numbers index no_card }
{
    match HouseTable.card(index / SIZE, index % SIZE) {
        Some(delay) => delay.half_lines,
        None => NO_CARD,
    }
}

// The numbers of our own table.
fn own_numbers() -> [i32; PLACES]
    ensures { result ≡ own_numbers }
{
    let mut numbers = [NO_CARD; PLACES];
    for index in 0..PLACES {
        numbers[index] = own_number(index);
    }
    numbers
}

// Checks our own table into a place. It passes, wherever the place has its length.
pub fn check_own_table(place: &mut [i32]) -> Result<(), TableFault>
    ensures passes { length place.old ≡ house_places → result ≡ Ok tt }
    ensures answer { TableVerdict own_numbers (length place.old) (table_refusal result) }
    ensures place { place.new ≡ after (table_refusal result) place.old own_numbers }
{
    check_table(&own_numbers(), place)
}
