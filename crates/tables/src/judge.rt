// The check of a table.
ghost use Rattle.std.specs.Prelude.{◌≡◌, length, MatchOption};
ghost use Rattle.registers.specs.Fault.{after};
ghost use Rattle.registers.specs.House.{house_places};
ghost use Rattle.tables.specs.Faults.{table_refusal};
ghost use Rattle.tables.specs.Tables.{AllSuit, FirstUnfit, TableVerdict};

use crate::fault::TableFault;
use crate::numbers::{Numbers, PLACES, suits};

// The index of the first number that may not stand there.
fn first_unfit(numbers: &[i32]) -> Option<u8>
    requires { length numbers.now ≡ house_places }
    ensures { MatchOption result (AllSuit numbers.now) (FirstUnfit numbers.now) }
{
    for index in 0..PLACES as u8 {
        let at = usize::from(index);
        if !suits(at, numbers[at]) {
            return Some(index);
        }
    }
    None
}

// That the numbers make a table without a closed walk that undercuts the unit, where there is room for so many, or why not.
pub(crate) fn judge(numbers: &[i32], room: usize) -> Result<(), TableFault>
    ensures { TableVerdict numbers.now room (table_refusal result) }
{
    if numbers.len() != PLACES || room != PLACES {
        return Err(TableFault::LengthUnfit);
    }
    if let Some(index) = first_unfit(numbers) {
        return Err(TableFault::NumberUnfit(index));
    }
    if (Numbers { numbers }).gains() {
        return Err(TableFault::Loop);
    }
    Ok(())
}

// Checks a customer's table. Granted, the place holds the numbers; refused, it is as it was.
pub fn check_table(numbers: &[i32], place: &mut [i32]) -> Result<(), TableFault>
    ensures answer { TableVerdict numbers.now (length place.old) (table_refusal result) }
    ensures place { place.new ≡ after (table_refusal result) place.old numbers.now }
{
    judge(numbers, place.len())?;
    place.copy_from_slice(numbers);
    Ok(())
}
