// The ticket: any bytes are routed, or refused with the byte.
#![tactic(auto)]

mod fault;
mod formats;
mod kinds;
mod orders;
mod serve;

pub use bay::{CHAIN_BYTES, Ends, MOST_LEGS};
pub use fault::{Refusal, TicketFault};
pub use formats::{FourCc, MOST_CODES};
pub use kinds::TicketCost;
pub use serve::{BayLine, MOST_BYTES, Memory, TICKET_ENTRIES, read_bay, route_ticket};
