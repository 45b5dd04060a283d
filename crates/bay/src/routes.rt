// The rows, costs and notes of all legs, from a table that has the least costs to the formats where they end.
ghost use Rattle.std.specs.Prelude.{◌≡◌, ℕ, ◌*◌, ◌<◌, ◌≤◌, true, map, slice_index_or};
ghost use Rattle.registers.specs.Meaning.{most_formats, stands};
ghost use Rattle.walks.specs.Levels.{upto};
ghost use Rattle.walks.specs.Theorems.{Sound};
ghost use Rattle.walks.specs.Walk.{Gains};
ghost use Rattle.bay.specs.Buffers.{Beyond};
ghost use Rattle.bay.specs.Cells.{Roomy, least_in, tabled};
ghost use Rattle.bay.specs.Eliminated.{ThirdDone};
ghost use Rattle.bay.specs.FormatSets.{Standing, holds};
ghost use Rattle.bay.specs.Leg.{noted};
ghost use Rattle.bay.specs.LegSlots.{Awaits, Blank, EndsIn, GoalServed, LegDone, Spares, Written, leg_slot};
ghost use Rattle.bay.specs.Legs.{booked};
ghost use Rattle.bay.specs.Plain.{ends};
ghost use Rattle.bay.specs.RouteWriters.{LegsBelow, SameMemory, leg_of, number_of, slots_of};
ghost use Rattle.bay.specs.Routes.{LeastChains, note_of};
ghost use Rattle.bay.specs.Sheet.{row_at, row_bytes};
ghost use Rattle.bay.specs.Tracing.{Clear, GoalReady};

use crate::cells::Cell;
use crate::legs::{Leg, Note};
use crate::rows::write_chain;
use crate::sets::FormatSet;
use crate::tree::{GoalTable, Ticks};
use crate::writing::RouteWriter;
use registers::{MOST_FORMATS, Register};

impl<R: Register> GoalTable<'_, R> {
    ghost use Rattle.bay.specs.GoalTables.{TracedBy, cards_of, cost_of};

    // One leg: its row, cost and note, where a chain leads to its end.
    fn write_leg(
        &self,
        writer: &mut RouteWriter<R::Cost>,
        k: usize,
        leg: Leg,
        next: &[usize; MOST_FORMATS],
    )
        requires ready { let p = self.now in
            GoalReady R.Cost.algebra p.n (cards_of p) (cost_of p) p.goal }
        requires leg { (k < number_of writer.old) × (leg ≡ leg_of writer.old k) }
        requires inside { (leg.from < self.now.n) × (leg.to ≡ self.now.goal) }
        requires traced { TracedBy self.now next.now leg.from }
        requires blank { Blank R.Cost.Cost (leg_slot (slots_of writer.old) k) }
        ensures lent { SameMemory writer.old writer.new }
        ensures done { let cards = cards_of self.now in
            LegDone R.Cost.Cost cards next.now k (slots_of writer.old) (slots_of writer.new) }
    {
        let Some(cost) = self.rest(leg.from) else {
            return;
        };
        writer.costs[k] = cost;
        let count = write_chain(next, leg.from, leg.to, writer.chains, k);
        writer.legs.set_note(k, Note::Chain(count));
    }

    // All legs that end in the goal.
    fn write_goal(&self, writer: &mut RouteWriter<R::Cost>, next: &[usize; MOST_FORMATS])
        requires ready { let p = self.now in
            GoalReady R.Cost.algebra p.n (cards_of p) (cost_of p) p.goal }
        requires legs { LegsBelow self.now.n writer.old }
        requires traced { (k : ℕ) → k < number_of writer.old →
            EndsIn (slots_of writer.old) k self.now.goal →
            TracedBy self.now next.now (leg_of writer.old k).from }
        requires awaits { Awaits R.Cost.Cost self.now.goal (slots_of writer.old) }
        ensures lent { SameMemory writer.old writer.new }
        ensures written { Written (slots_of writer.old) (slots_of writer.new) }
        ensures spares { Spares self.now.goal (slots_of writer.old) (slots_of writer.new) }
        ensures served { let cards = cards_of self.now in
            GoalServed R.Cost.Cost cards next.now self.now.goal (slots_of writer.new) }
    {
        // By number, since the legs are written while they are gone through.
        for k in 0..writer.legs.len() {
            let leg = writer.legs.as_slice()[k];
            if leg.to == self.goal {
                self.write_leg(writer, k, leg, next);
            }
        }
    }
}

// One goal: it is traced, and the legs that end in it are written.
fn serve_goal<'w, 'x, R: Register>(
    writer: &mut RouteWriter<'w, R::Cost>,
    register: &'x R,
    n: usize,
    cells: &'x [Cell<R::Cost>],
    there: &'x [FormatSet; MOST_FORMATS],
    standing: &'x [FormatSet; MOST_FORMATS],
    goal: usize,
    sheet: &mut [bool; MOST_FORMATS],
    next: &mut [usize; MOST_FORMATS],
)
    requires roomy { Roomy R.Cost.Cost n (tabled cells.now there.now) }
    requires stand { let cards = upto n (stands R.Cost.Cost (R.holds register.now)) in
        Standing n cards standing.now }
    requires ready { let cards = upto n (stands R.Cost.Cost (R.holds register.now)) in
        let least = least_in R.Cost.Cost n (tabled cells.now there.now) in
        GoalReady R.Cost.algebra n cards (least goal) goal }
    requires legs { LegsBelow n writer.old }
    requires awaits { Awaits R.Cost.Cost goal (slots_of writer.old) }
    requires clear { Clear sheet.old }
    ensures lent { SameMemory writer.old writer.new }
    ensures written { Written (slots_of writer.old) (slots_of writer.new) }
    ensures spares { Spares goal (slots_of writer.old) (slots_of writer.new) }
    ensures served { let cards = upto n (stands R.Cost.Cost (R.holds register.now)) in
        GoalServed R.Cost.Cost cards next.new goal (slots_of writer.new) }
    ensures clear { Clear sheet.new }
{
    let wanted = writer.starts_to(goal);
    let table = GoalTable {
        register,
        high: n,
        cells,
        there,
        standing,
        n,
        goal,
    };
    let mut ticks = Ticks::over(sheet);
    table.trace(&wanted, &mut ticks, next);
    table.write_goal(writer, next);
}

// The rows, costs and notes of all legs, from a table that has the least costs to the formats where they end. The array of ticks is
// clear again at the end.
pub(crate) fn write_routes<'w, 'x, R: Register>(
    writer: &mut RouteWriter<'w, R::Cost>,
    register: &'x R,
    n: usize,
    cells: &'x [Cell<R::Cost>],
    there: &'x [FormatSet; MOST_FORMATS],
    standing: &'x [FormatSet; MOST_FORMATS],
    goals: FormatSet,
    sheet: &mut [bool; MOST_FORMATS],
)
    requires roomy { Roomy R.Cost.Cost n (tabled cells.now there.now) }
    requires stand { let cards = upto n (stands R.Cost.Cost (R.holds register.now)) in
        Standing n cards standing.now }
    requires sound { let cards = upto n (stands R.Cost.Cost (R.holds register.now)) in
        Sound R.Cost.algebra n cards }
    requires calm { let cards = upto n (stands R.Cost.Cost (R.holds register.now)) in
        Gains R.Cost.algebra cards → ⊥ }
    requires legs { LegsBelow n writer.old }
    requires goals { (k : ℕ) → k < number_of writer.old →
        holds goals (leg_of writer.old k).to ≡ true }
    requires least { let cards = upto n (stands R.Cost.Cost (R.holds register.now)) in
        (goal : ℕ) → goal < n → holds goals goal ≡ true →
        ThirdDone R.Cost.Cost n cards (tabled cells.now there.now) goal }
    requires clear { Clear sheet.old }
    ensures lent { SameMemory writer.old writer.new }
    ensures routed { (d : R.Cost) →
        LeastChains R.Cost.algebra (upto n (stands R.Cost.Cost (R.holds register.now)))
        (map ends (booked writer.old.legs.now)) (row_at writer.new.chains.now)
        (λ k. R.Cost.value (slice_index_or writer.new.costs.now k d)) }
    ensures chains { let bytes = row_bytes * number_of writer.old in
        Beyond bytes writer.old.chains.now writer.new.chains.now }
    ensures costs { Beyond (number_of writer.old) writer.old.costs.now writer.new.costs.now }
    ensures legs { number_of writer.new ≡ number_of writer.old }
    ensures notes { (k : ℕ) → k < number_of writer.old → leg_of writer.new k
        ≡ noted (note_of (row_at writer.new.chains.now k)) (leg_of writer.old k) }
    ensures clear { Clear sheet.new }
{
    writer.clear();
    let mut next = [0; MOST_FORMATS];
    for goal in 0..n {
        if goals.holds(goal) {
            serve_goal(
                writer, register, n, cells, there, standing, goal, sheet, &mut next,
            );
        }
    }
}
