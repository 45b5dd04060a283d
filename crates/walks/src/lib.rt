// The theory of walks over cards: what a walk, its cost and a least cost are, and what holds of them for every cost kind.
#![tactic(auto)]

mod theory;

pub use theory::theorems;
