// The bay: converter cards of a register, and the legs that are to be routed over them. What is public may always be called;
// functions that ask something of their caller by a `requires` serve the crate alone.
#![tactic(auto)]

mod bays;
mod calls;
mod cells;
mod elimination;
mod fault;
mod judge;
mod law;
mod legs;
mod negative_cycle;
mod routes;
mod rows;
mod sets;
mod splits;
mod substitution;
mod survey;
mod tree;
mod writing;

pub use bays::Bay;
pub use calls::{Answer, CHAIN_BYTES, Call};
pub use cells::Cell;
pub use fault::BayFault;
pub use law::{from_outputs, one_by_one};
pub use legs::{Ends, Leg, MOST_LEGS, Note};
pub use rows::ROW;
pub use splits::SPLIT_ROWS;
pub use survey::rows_passed;
