// What a route writes for each leg: its row, its cost and its note.
ghost use Rattle.std.specs.Prelude.{◌≡◌, ℕ, ◌*◌, ◌<◌, ◌≤◌, true, false, length, slice_index_or};
ghost use Rattle.registers.specs.Meaning.{most_formats};
ghost use Rattle.bay.specs.FormatSets.{holds};
ghost use Rattle.bay.specs.LegSlots.{Blank, EndsIn, Written, leg_slot};
ghost use Rattle.bay.specs.Legs.{booked};
ghost use Rattle.bay.specs.Sheet.{row_bytes};

use crate::legs::{Legs, Note};
use crate::rows::write_no_chain;
use crate::sets::FormatSet;
use costs::Cost;
use registers::MOST_FORMATS;

// What a route writes: leg k with its note, entry k of the cost sheet and row k of the chain sheet.
pub(crate) struct RouteWriter<'a, C> {
    pub(crate) legs: &'a mut Legs,
    pub(crate) costs: &'a mut [C],
    pub(crate) chains: &'a mut [u8],
    // each leg has an entry and a row
    ghost entries: { length (booked legs.now) ≤ length costs.now },
    ghost rows: { row_bytes * length (booked legs.now) ≤ length chains.now },
}

// When it ends, the legs and the sheets are given back as the writer had them.
impl<C> Drop for RouteWriter<'_, C> {
    fn drop(self)
        ensures legs { self.exit.0.now ≡ self.entry.legs.now }
        ensures costs { self.exit.1.0.now ≡ self.entry.costs.now }
        ensures chains { self.exit.1.1.0.now ≡ self.entry.chains.now }
    {
        let RouteWriter {
            legs: _,
            costs: _,
            chains: _,
        } = self;
    }
}

impl<C: Cost> RouteWriter<'_, C> {
    ghost use Rattle.bay.specs.RouteWriters.{LegsBelow, SameMemory, leg_of, number_of, slots_of};

    // Every leg without a chain, at the cost that changes nothing.
    pub(crate) fn clear(&mut self)
        ensures lent { SameMemory self.old self.new }
        ensures written { Written (slots_of self.old) (slots_of self.new) }
        ensures blank { (k : ℕ) → k < number_of self.new →
            Blank C.Cost (leg_slot (slots_of self.new) k) }
    {
        // A number k, as it names a leg, an entry and a row, and all three are written.
        for k in 0..self.legs.len() {
            self.costs[k] = C::unit();
            write_no_chain(self.chains, k);
            self.legs.set_note(k, Note::NoChain);
        }
    }

    // The formats where a leg ends.
    pub(crate) fn goals(&self) -> FormatSet
        requires { LegsBelow most_formats self.now }
        ensures each { (k : ℕ) → k < number_of self.now →
            holds result (leg_of self.now k).to ≡ true }
        ensures only { (f : ℕ) → holds result f ≡ true →
            (k : ℕ) × (k < number_of self.now) × ((leg_of self.now k).to ≡ f) }
    {
        let mut goals = FormatSet::none();
        for leg in self.legs.as_slice() {
            goals = goals.with(leg.to);
        }
        goals
    }

    // The formats where a leg to the goal begins.
    pub(crate) fn starts_to(&self, goal: usize) -> [bool; MOST_FORMATS]
        requires { LegsBelow most_formats self.now }
        ensures each { (k : ℕ) → k < number_of self.now → EndsIn (slots_of self.now) k goal →
            slice_index_or result (leg_of self.now k).from false ≡ true }
        ensures only { (v : ℕ) → slice_index_or result v false ≡ true →
            (k : ℕ) × (k < number_of self.now) × EndsIn (slots_of self.now) k goal
            × ((leg_of self.now k).from ≡ v) }
    {
        let mut starts = [false; MOST_FORMATS];
        for leg in self.legs.as_slice() {
            if leg.to == goal {
                starts[leg.from] = true;
            }
        }
        starts
    }
}
