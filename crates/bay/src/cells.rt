// The cells of a working table.
ghost use Rattle.std.specs.Prelude.{◌≡◌, ◌*◌, ◌<◌, ◌≤◌, length, slice_set};
ghost use Rattle.std.specs.Option.{option_map};
ghost use Rattle.registers.specs.Meaning.{most_formats};
ghost use Rattle.bay.specs.Cells.{least_in, meaning_at, tabled};

use crate::sets::FormatSet;
use costs::Cost;
use registers::MOST_FORMATS;

// One cell of a working table, for two formats: the least cost from the first to the second that was found so far. Which cells have
// one is kept beside the table, so that no cost has to stand for none.
#[derive(Clone, Copy, Debug, PartialEq, Eq)]
pub struct Cell<C> {
    pub cost: C,
}

impl<C: Cost> Cell<C> {
    // A cell to make a table of; it does not matter what it holds.
    pub fn empty() -> Cell<C>
        ensures { C.value result.cost ≡ C.algebra.unit }
    {
        Cell { cost: C::unit() }
    }
}

// The cost at a place of the table.
#[inline(always)]
pub(crate) fn cost_in<C: Cost>(cells: &[Cell<C>], place: usize) -> C
    requires { place < length cells.now }
    ensures { C.value result ≡ meaning_at C.Cost cells.now place }
{
    cells[place].cost
}

// Sets the cost at a place of the table.
#[inline(always)]
pub(crate) fn set_cost<C: Cost>(cells: &mut [Cell<C>], place: usize, cost: C)
    requires { place < length cells.old }
    ensures { cells.new ≡ slice_set cells.old place (record { cost = cost }) }
{
    cells[place].cost = cost;
}

// The cost from `s` to `t`, if one was found. The table is a plain slice, whose holder has room for more cells: so `n` is passed
// beside it.
pub(crate) fn cost_at<C: Cost>(
    cells: &[Cell<C>],
    there: &[FormatSet; MOST_FORMATS],
    n: usize,
    s: usize,
    t: usize,
) -> Option<C>
    requires room { n * n ≤ length cells.now }
    requires few { n ≤ most_formats }
    requires inside { (s < n) × (t < n) }
    ensures { option_map C.value result ≡ least_in C.Cost n (tabled cells.now there.now) s t }
{
    if there[s].holds(t) {
        Some(cost_in(cells, s * n + t))
    } else {
        None
    }
}
