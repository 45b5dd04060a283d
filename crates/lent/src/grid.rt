// The grid: a register that reads the costs of all pairs from memory that its maker hands in.
ghost use Rattle.std.specs.Prelude.{◌≡◌, ◌<◌, length};
ghost use Rattle.registers.specs.Fault.{first_cause, refusal};
ghost use Rattle.lent.specs.Grid.{grid, cost_read};
ghost use Rattle.costs.specs.Kind.{admits};
ghost use Rattle.lent.specs.Matrix.{matrix_causes};

use crate::matrix::matrix_fits;
use crate::memory::{judge_memory, nearest_size};
use costs::Cost;
use registers::{Format, Register, RegisterFault, judge_entry, judge_pair};

// A register of `n` formats over the first n × n of `costs`, row by row. They stay as they are: every pair is sealed. A cost
// that no card may have stands for no card. Where `n` or the memory will not do, there is no card.
#[derive(Clone, Copy)]
pub struct Grid<'a, C> {
    n: usize,
    costs: &'a [C],
}

impl<'a, C: Cost> Grid<'a, C> {
    // Whether a grid of n formats can be made over these costs, or the first cause why not.
    pub fn check(n: usize, costs: &[C]) -> Result<(), RegisterFault>
        ensures answer { refusal result ≡ first_cause (matrix_causes n (length costs.now)) }
    {
        judge_memory(n, matrix_fits(n, costs.len()))
    }

    // A grid over these costs; made with what will not do, it has no card.
    pub fn new(n: usize, costs: &'a [C]) -> Grid<'a, C>
        ensures holds { grid (admits C.Cost) result.n result.costs.now
            ≡ grid (admits C.Cost) n costs.now }
    {
        Grid { n, costs }
    }

    // The cost at a place, where a card may have it.
    fn cost_at(&self, place: usize) -> Option<C>
        requires { place < length self.now.costs.now }
        ensures { result ≡ cost_read (admits C.Cost) self.now.costs.now place }
    {
        Some(self.costs[place]).filter(|cost| cost.admitted())
    }
}

impl<'a, C: Cost> Register for Grid<'a, C> {
    type Cost = C;

    ghost holds = { λ g. grid (admits C.Cost) g.n g.costs.now };

    fn size(&self) -> usize {
        nearest_size(self.n)
    }

    fn card(&self, from: Format, to: Format) -> Option<C> {
        judge_pair(self.size(), from, to).ok()?;
        if !matrix_fits(self.n, self.costs.len()) {
            return None;
        }
        self.cost_at(from * self.n + to)
    }

    fn enter(&mut self, from: Format, to: Format, cost: C) -> Result<(), RegisterFault> {
        judge_entry(self.size(), from, to, cost)?;
        Err(RegisterFault::Sealed)
    }

    fn withdraw(&mut self, from: Format, to: Format) -> Result<(), RegisterFault> {
        judge_pair(self.size(), from, to)?;
        Err(RegisterFault::Sealed)
    }
}
