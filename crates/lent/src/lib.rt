// Registers in lent memory: the matrix and the list hold their cards in memory that their maker lends, and neither
// asks for any of its own. Both are registers like every other, and prove besides what they do to that memory. The grid reads
// its cards from memory that nobody writes meanwhile.
#![tactic(auto)]

mod grid;
mod list;
mod matrix;
mod memory;

pub use grid::Grid;
pub use list::{Entry, List, MOST_ENTRIES};
pub use matrix::Matrix;
