// A route over a customer's table.
ghost use Rattle.bay.specs.Buffers.{buffers};
ghost use Rattle.direct.specs.Loaded.{TableAnswer};

use crate::cards::book_all;
use bay::{Bay, BayFault, Cell, Ends};
use costs::Delay;
use registers::{Bars, Over};
use tables::{LoadedTable, route_gainless};

// Routes the legs over the table that a place holds, under bars. A place that the check of a table would refuse has no card, so no
// route is refused for a loop. Leg k has entry k of the cost sheet and row k of the chain sheet. Answers the number of legs.
pub fn route_table(
    place: &[i32],
    bars: Bars,
    legs: &[Ends],
    table: &mut [Cell<Delay>],
    costs: &mut [Delay],
    chains: &mut [u8],
) -> Result<usize, BayFault>
    ensures { TableAnswer place.now bars.bits legs.now
        (buffers table.old costs.old chains.old) (buffers table.new costs.new chains.new) result }
{
    let mut bay = Bay::new(Over::new(LoadedTable::new(place), bars));
    book_all(&mut bay, legs)?;
    route_gainless(&mut bay, table, costs, chains)
}
