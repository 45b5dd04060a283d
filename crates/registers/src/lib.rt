// Registers: which converter cards stand, behind one trait. The layers above are proved over a register's meaning.
// `judge_ends`, `judge_pair` and `judge_entry` are pub only for our own crates: a register of theirs judges its calls by the last
// two, and the bay its legs by the first.
#![tactic(auto)]

mod bar;
mod fault;
mod house;
mod judge;
mod over;
mod reversed;

ghost use Rattle.std.specs.Prelude.{◌≡◌, true, IfSome};
ghost use Rattle.std.specs.Option.{option_map};
ghost use Rattle.costs.specs.Kind.{admits};
ghost use Rattle.registers.specs.Fault.{first_cause, refusal, after};
ghost use Rattle.registers.specs.Meaning.{Meaning, meant, IsSize, standing, entered, withdrawn};
ghost use Rattle.registers.specs.Meaning.{enter_causes, withdraw_causes};

pub use bar::{Bar, Bars};
use costs::Cost;
pub use fault::{Code, EndsFault, Layer, RegisterFault};
pub use house::HouseTable;
pub use judge::{judge_ends, judge_entry, judge_pair};
pub use over::{Over, View};
pub use reversed::{Reversed, Turned};

// A register has at least so many formats.
pub const LEAST_FORMATS: usize = 2;

// A register has at most so many formats.
pub const MOST_FORMATS: usize = 64;

// A format, by its number. A register has those below its size.
pub type Format = usize;

// The cards that stand. A call takes the two formats of a pair as two arguments: a struct of the two would be made for every call,
// only to be taken apart in it. `holds` is all that a register holds, and the contracts speak of it by what the costs in it mean;
// how a register lays out its memory is its own affair.
pub trait Register {
    type Cost: Cost;

    ghost holds: { Self → Meaning Self.Cost };

    // How many formats there are.
    fn size(&self) -> usize
        ensures value { result ≡ (holds self.now).size }
        ensures bounds { IsSize result };

    // The cost of the standing card, or none; none too for a pair that no card can have.
    fn card(&self, from: Format, to: Format) -> Option<Self::Cost>
        ensures value { option_map Self.Cost.value result
            ≡ standing (meant Self.Cost.Cost (holds self.now)) from to }
        ensures admitted { IfSome result (λ x. admits Self.Cost.Cost x ≡ true) };

    // Sets the pair's card, or refuses and changes nothing.
    fn enter(&mut self, from: Format, to: Format, cost: Self::Cost) -> Result<(), RegisterFault>
        ensures answer { let m = meant Self.Cost.Cost (holds self.old) in
            refusal result ≡ first_cause (enter_causes m from to (admits Self.Cost.Cost cost)) }
        ensures after { let m = meant Self.Cost.Cost (holds self.old) in
            meant Self.Cost.Cost (holds self.new)
            ≡ after (refusal result) m (entered m from to (Self.Cost.value cost)) };

    // Removes the pair's card, or refuses and changes nothing.
    fn withdraw(&mut self, from: Format, to: Format) -> Result<(), RegisterFault>
        ensures answer { let m = meant Self.Cost.Cost (holds self.old) in
            refusal result ≡ first_cause (withdraw_causes m from to) }
        ensures after { let m = meant Self.Cost.Cost (holds self.old) in
            meant Self.Cost.Cost (holds self.new)
            ≡ after (refusal result) m (withdrawn m from to) };
}
