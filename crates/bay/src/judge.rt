// What a bay judges before it acts.
ghost use Rattle.std.specs.Prelude.{◌≡◌, ◌≤◌};
ghost use Rattle.registers.specs.Fault.{first_cause};
ghost use Rattle.registers.specs.Meaning.{most_formats};
ghost use Rattle.bay.specs.Faults.{refused};
ghost use Rattle.bay.specs.Limits.{most_legs};
ghost use Rattle.bay.specs.Plain.{room_causes};
ghost use Rattle.bay.specs.Runs.{run_causes};
ghost use Rattle.bay.specs.Splits.{split_causes};

use crate::calls::{CHAIN_BYTES, Call};
use crate::fault::BayFault;
use crate::legs::MOST_LEGS;
use crate::rows::ROW;
use crate::splits::{Branches, SPLIT_ROWS};
use registers::judge_ends;

// That there are legs, and that the table and the sheets are long enough for them, or the first cause why not. Of numbers alone,
// so that it knows no register.
pub(crate) fn judge_room(
    legs: usize,
    size: usize,
    cells: usize,
    entries: usize,
    bytes: usize,
) -> Result<(), BayFault>
    requires few_legs { legs ≤ most_legs }
    requires few_formats { size ≤ most_formats }
    ensures { refused result ≡ first_cause (room_causes legs size cells entries bytes) }
{
    if legs == 0 {
        Err(BayFault::NoLegs)
    } else if cells < size * size {
        Err(BayFault::TableShort)
    } else if entries < legs {
        Err(BayFault::CostsShort)
    } else if bytes < ROW * legs {
        Err(BayFault::ChainsShort)
    } else {
        Ok(())
    }
}

// That the input and the outputs of a fork are formats, and that the table and the sheets are long enough for a split, or the first
// cause why not.
pub(crate) fn judge_split(
    branches: Branches,
    n: usize,
    cells: usize,
    entries: usize,
    bytes: usize,
) -> Result<(), BayFault>
    requires few_formats { n ≤ most_formats }
    ensures { let b = branches in
        refused result ≡ first_cause (split_causes n b.input b.first b.second cells entries bytes) }
{
    judge_ends(n, branches.input, branches.first)?;
    if branches.second >= n {
        Err(BayFault::SecondOutside)
    } else if cells < n * n {
        Err(BayFault::TableShort)
    } else if entries == 0 {
        Err(BayFault::CostsShort)
    } else if bytes < ROW * SPLIT_ROWS {
        Err(BayFault::ChainsShort)
    } else {
        Ok(())
    }
}

// That the sheets have a part for each call that works in one, and that there is a place for each answer, or the first cause why
// not.
pub(crate) fn judge_run<C>(
    calls: &[Call<C>],
    answers: usize,
    entries: usize,
    bytes: usize,
) -> Result<(), BayFault>
    ensures { refused result ≡ first_cause (run_causes calls.now entries bytes answers) }
{
    let parts = calls.iter().filter(|call| call.takes_part()).count();
    if entries / MOST_LEGS < parts {
        Err(BayFault::CostsShort)
    } else if bytes / CHAIN_BYTES < parts {
        Err(BayFault::ChainsShort)
    } else if answers < calls.len() {
        Err(BayFault::AnswersShort)
    } else {
        Ok(())
    }
}
