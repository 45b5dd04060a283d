// The text of a ticket's answer, byte by byte.
#![tactic(auto)]

mod answer;
mod on_stack;
mod output;
mod text;

pub use answer::{
    MOST_ANSWER, PlaceShort, TicketAnswer, View, answer_ticket, write_answer, write_refusal,
};
pub use on_stack::answer_on_stack;
