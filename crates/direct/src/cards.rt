// A route over the costs of all pairs.
ghost use Rattle.bay.specs.Bays.{plain};
ghost use Rattle.bay.specs.Buffers.{buffers};
ghost use Rattle.direct.specs.Cards.{AllBooked, CardsAnswer};

use bay::{Bay, BayFault, Cell, Ends};
use costs::Cost;
use lent::Grid;
use registers::Register;

// Books legs one after the other, up to the first that is refused.
pub(crate) fn book_all<R: Register>(bay: &mut Bay<R>, legs: &[Ends]) -> Result<(), BayFault>
    ensures { AllBooked (plain bay.old) (plain bay.new) legs.now result }
{
    for leg in legs {
        bay.book(leg.from, leg.to)?;
    }
    Ok(())
}

// Routes the legs over the cards of `n` formats, which stand row by row in `cards`: a cost that no card may have is no card. Leg
// k has entry k of the cost sheet and row k of the chain sheet. Answers the number of legs.
pub fn route_cards<C: Cost>(
    n: usize,
    cards: &[C],
    legs: &[Ends],
    table: &mut [Cell<C>],
    costs: &mut [C],
    chains: &mut [u8],
) -> Result<usize, BayFault>
    ensures { CardsAnswer C.Cost n cards.now legs.now (buffers table.old costs.old chains.old)
        (buffers table.new costs.new chains.new) result }
{
    Grid::check(n, cards)?;
    let mut bay = Bay::new(Grid::new(n, cards));
    book_all(&mut bay, legs)?;
    bay.route(table, costs, chains)
}
