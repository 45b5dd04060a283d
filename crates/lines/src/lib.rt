// The lines of a ticket: each is read, or refused at the byte.
#![tactic(auto)]

mod line;
mod numeral;
mod reader;
mod sort;
mod words;

pub use line::{Amount, Kind, Line, Read, Stage, Unfit};
pub use reader::read_line;
pub use words::{same_bytes, size_begins};
