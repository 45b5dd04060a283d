// Forks without a ticket: where one input splits on its way to two outputs.
ghost use Rattle.bay.specs.Buffers.{buffers};
ghost use Rattle.direct.specs.Forks.{CardsForked, TableForked};

use bay::{Bay, BayFault, Cell};
use costs::{Cost, Delay};
use lent::Grid;
use registers::{Bars, Format, Over};
use tables::{LoadedTable, fork_gainless};

// Splits the input over the two outputs, over the cards of `n` formats, which stand row by row in `cards`: a cost that no card may
// have is no card. Answers the format where it splits. Rows 0 to 2 have the chains from the input to it and from it to the first
// and to the second output, and entry 0 of the cost sheet what the three cost together.
pub fn fork_cards<C: Cost>(
    n: usize,
    cards: &[C],
    input: Format,
    first: Format,
    second: Format,
    table: &mut [Cell<C>],
    costs: &mut [C],
    chains: &mut [u8],
) -> Result<Format, BayFault>
    ensures { CardsForked C.Cost n cards.now input first second
        (buffers table.old costs.old chains.old) (buffers table.new costs.new chains.new) result }
{
    Grid::check(n, cards)?;
    let bay = Bay::new(Grid::new(n, cards));
    bay.fork(input, first, second, table, costs, chains)
}

// Splits the input over the two outputs, over the table that a place holds, under bars. A place that the check of a table would
// refuse has no card, so no fork is refused for a loop.
pub fn fork_table(
    place: &[i32],
    bars: Bars,
    input: Format,
    first: Format,
    second: Format,
    table: &mut [Cell<Delay>],
    costs: &mut [Delay],
    chains: &mut [u8],
) -> Result<Format, BayFault>
    ensures { TableForked place.now bars.bits input first second
        (buffers table.old costs.old chains.old) (buffers table.new costs.new chains.new) result }
{
    let bay = Bay::new(Over::new(LoadedTable::new(place), bars));
    fork_gainless(&bay, input, first, second, table, costs, chains)
}
