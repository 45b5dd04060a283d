// Routes and forks that are asked for without a ticket, by a host that has the cost of each pair of formats at hand.
#![tactic(auto)]

mod cards;
mod forks;
mod loaded;

pub use cards::route_cards;
pub use forks::{fork_cards, fork_table};
pub use loaded::route_table;
