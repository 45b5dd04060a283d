// Registers whose cards never make a loop that undercuts the unit, and routes and forks over them.
ghost use Rattle.std.specs.Prelude.{◌≡◌, ◌≢◌, Err};
ghost use Rattle.registers.specs.Meaning.{stands};
ghost use Rattle.walks.specs.Walk.{Gains};
ghost use Rattle.tables.specs.OwnLaws.{house_calm};
ghost use Rattle.tables.specs.ViewLaws.{viewed_calm};
ghost use Rattle.bay.specs.Bays.{legs, plain};
ghost use Rattle.bay.specs.Buffers.{buffers};
ghost use Rattle.bay.specs.Routing.{RouteAnswer};
ghost use Rattle.bay.specs.Splits.{ForkAnswer};
ghost use Rattle.bay.specs.declared.fault.BayFault.TheVariants.{Loop};

use crate::loaded::LoadedTable;
use bay::{Bay, BayFault, Cell};
use registers::{Format, HouseTable, Over, Register, View};

// A register over whose standing cards no closed walk undercuts the unit, whatever state it can come to.
pub trait Gainless: Register {
    ghost never_gains: { (r : Self) →
        Gains Self.Cost.algebra (stands Self.Cost.Cost (Self.holds r)) → ⊥ };
}

impl Gainless for LoadedTable<'_> {
    ghost never_gains = { λ t. t.no_loop };
}

impl Gainless for HouseTable {
    ghost never_gains = { λ _. house_calm };
}

// Seen through a view, whichever it is: the cards that are seen are some of those below, or some of those turned round.
impl<R: Gainless, V: View> Gainless for Over<R, V> {
    ghost never_gains = { λ o.
        viewed_calm (record { algebra = R.Cost.algebra; value = R.Cost.value }) R.Cost.lawful
        (V.shuts o.view) (V.turned o.view) (R.holds o.below) (R.never_gains o.below) };
}

// A route on a bay over such a register, under any pile of views. It is as every route, and never refused for a loop.
pub fn route_gainless<R: Gainless>(
    bay: &mut Bay<R>,
    table: &mut [Cell<R::Cost>],
    costs: &mut [R::Cost],
    chains: &mut [u8],
) -> Result<usize, BayFault>
    ensures never { result ≢ Err Loop }
    ensures answer { let before = buffers table.old costs.old chains.old in
        let after = buffers table.new costs.new chains.new in
        RouteAnswer (plain bay.old) (legs bay.old) (legs bay.new) before after result }
    ensures same { plain bay.new ≡ plain bay.old }
    ensures register { bay.new.register ≡ bay.old.register }
{
    bay.route(table, costs, chains)
}

// A fork on a bay over such a register, under any pile of views. It is as every fork, and never refused for a loop.
pub fn fork_gainless<R: Gainless>(
    bay: &Bay<R>,
    input: Format,
    first: Format,
    second: Format,
    table: &mut [Cell<R::Cost>],
    costs: &mut [R::Cost],
    chains: &mut [u8],
) -> Result<Format, BayFault>
    ensures never { result ≢ Err Loop }
    ensures answer { let before = buffers table.old costs.old chains.old in
        let after = buffers table.new costs.new chains.new in
        let cards = (plain bay.now).register in
        ForkAnswer R.Cost.Cost cards input first second before after result }
{
    bay.fork(input, first, second, table, costs, chains)
}
