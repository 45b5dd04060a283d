// House tables of a customer's own: numbers are checked into a place, and a place is a register over which no route finds a loop.
#![tactic(auto)]

mod fault;
mod gainless;
mod judge;
mod loaded;
mod numbers;
mod own;

pub use fault::TableFault;
pub use gainless::{Gainless, fork_gainless, route_gainless};
pub use judge::check_table;
pub use loaded::LoadedTable;
pub use numbers::{NO_CARD, PLACES};
pub use own::check_own_table;
