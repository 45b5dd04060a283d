// The cheapest split: where one input is to divide on its way to two outputs. Its costs are found by the stages of a route, for every
// format as a goal, and its chains are traced as a route's are.
ghost use Rattle.std.specs.Prelude.{◌≡◌, ◌+◌, ◌*◌, ◌<◌, ◌≤◌, length, MatchOption, Some};
ghost use Rattle.std.specs.Option.{option_map};
ghost use Rattle.registers.specs.Meaning.{meant, stands};
ghost use Rattle.walks.specs.Levels.{upto};
ghost use Rattle.walks.specs.Walk.{Least, LeastOf, WalkCosts};
ghost use Rattle.bay.specs.Buffers.{buffers};
ghost use Rattle.bay.specs.Cells.{Roomy, tabled};
ghost use Rattle.bay.specs.FormatSets.{Standing};
ghost use Rattle.bay.specs.Sheet.{row_bytes};
ghost use Rattle.bay.specs.SplitTables.{Asked, Better};
ghost use Rattle.bay.specs.Splits.{ForkAnswer, split_rows};
ghost use Rattle.bay.specs.Tracing.{Clear};

use crate::cells::{Cell, cost_at};
use crate::elimination::Found;
use crate::fault::BayFault;
use crate::judge::judge_split;
use crate::negative_cycle::write_loop;
use crate::rows::write_chain;
use crate::sets::FormatSet;
use crate::substitution::solve_to;
use crate::survey::solve;
use crate::tree::{GoalTable, Ticks};
use costs::Cost;
use registers::{Format, MOST_FORMATS, Register};

// A split has so many rows: the chain that leads to it, and the one that leads on to each output.
pub const SPLIT_ROWS: usize = 3;

// What a fork is asked: an input, and the two outputs that are wanted from it.
#[derive(Clone, Copy)]
pub(crate) struct Branches {
    pub(crate) input: Format,
    pub(crate) first: Format,
    pub(crate) second: Format,
}

// A format to split at, and what the three chains cost together.
#[derive(Clone, Copy)]
struct Split<C> {
    at: Format,
    total: C,
}

// The better of a split that is held and of one at another format: the one that is held, unless it is undercut.
fn better_split<C: Cost>(held: Option<Split<C>>, at: Format, total: Option<C>) -> Option<Split<C>>
    ensures { Better C.Cost held at total result }
{
    let Some(total) = total else {
        return held;
    };
    match held {
        Some(split) if !total.undercuts(split.total) => Some(split),
        _ => Some(Split { at, total }),
    }
}

// A table with the least costs between all formats: the row of each has those that lead to it.
#[derive(Drop)]
struct LeastCosts<'a, R: Register> {
    register: &'a R,
    cells: &'a [Cell<R::Cost>],
    there: &'a [FormatSet; MOST_FORMATS],
    standing: &'a [FormatSet; MOST_FORMATS],
    n: usize,
    // there are n × n cells
    ghost roomy: { Roomy R.Cost.Cost n (tabled cells.now there.now) },
    // the sets have the cards
    ghost stand: { Standing n (upto n (stands R.Cost.Cost (R.holds register.now))) standing.now },
}

impl<R: Register> LeastCosts<'_, R> {
    ghost use Rattle.bay.specs.LeastTables.{Complete, cards_between};
    ghost use Rattle.bay.specs.SplitTables.{BestBelow, ChainPut, NoTotalAt, NoneWritten, SplitWritten, TotalsAt};

    // The least cost from one format to another over all walks, if one leads there.
    fn between(&self, from: Format, to: Format) -> Option<R::Cost>
        requires complete { Complete self.now }
        requires inside { (from < self.now.n) × (to < self.now.n) }
        ensures { let cards = cards_between self.now in
            Least R.Cost.algebra cards from to (option_map R.Cost.value result) }
    {
        cost_at(self.cells, self.there, self.n, to, from)
    }

    // The least total at a format, if walks lead from the input to it and from there to both outputs.
    fn total_at(&self, branches: Branches, at: Format) -> Option<R::Cost>
        requires complete { Complete self.now }
        requires inside { (at < self.now.n) × Asked branches self.now.n }
        ensures { let A = R.Cost.algebra in
            let cards = cards_between self.now in
            MatchOption result (NoTotalAt A cards branches at)
            (λ x. LeastOf A (TotalsAt A cards branches at) (Some (R.Cost.value x))) }
    {
        let stem = self.between(branches.input, at)?;
        let branch = self.between(at, branches.first)?;
        let other = self.between(at, branches.second)?;
        Some(stem.join(branch).join(other))
    }

    // The lowest of the formats with the least total.
    fn cheapest(&self, branches: Branches) -> Option<Split<R::Cost>>
        requires complete { Complete self.now }
        requires inside { Asked branches self.now.n }
        ensures { let cards = cards_between self.now in
            BestBelow R.Cost.Cost cards branches self.now.n result }
    {
        let mut best = None;
        for at in 0..self.n {
            let total = self.total_at(branches, at);
            best = better_split(best, at, total);
        }
        best
    }

    // Writes into row `k` of the sheet a chain of least cost from one format to another that a walk leads to. The array of ticks is
    // clear again at the end.
    fn write_least(
        &self,
        from: Format,
        to: Format,
        sheet: &mut [bool; MOST_FORMATS],
        chains: &mut [u8],
        k: usize,
    )
        requires complete { Complete self.now }
        requires inside { (from < self.now.n) × (to < self.now.n) }
        requires reached { (x : R.Cost.algebra.Value)
            × WalkCosts R.Cost.algebra (cards_between self.now) from to x }
        requires clear { Clear sheet.old }
        requires row { row_bytes * k + row_bytes ≤ length chains.old }
        ensures clear { Clear sheet.new }
        ensures put { let cards = cards_between self.now in
            ChainPut R.Cost.algebra cards from to k chains.old chains.new }
    {
        let table = GoalTable {
            register: self.register,
            high: self.n,
            cells: self.cells,
            there: self.there,
            standing: self.standing,
            n: self.n,
            goal: to,
        };
        let mut wanted = [false; MOST_FORMATS];
        wanted[from] = true;
        let mut next = [0; MOST_FORMATS];
        let mut ticks = Ticks::over(sheet);
        table.trace(&wanted, &mut ticks, &mut next);
        write_chain(&next, from, to, chains, k);
    }

    // Writes the cheapest split: its total into the first entry, and its chains into the first rows. Where no walk leads from the
    // input to some output, nothing is written. The array of ticks is clear again at the end.
    fn write_split(
        &self,
        branches: Branches,
        sheet: &mut [bool; MOST_FORMATS],
        costs: &mut [R::Cost],
        chains: &mut [u8],
    ) -> Option<Format>
        requires complete { Complete self.now }
        requires inside { Asked branches self.now.n }
        requires clear { Clear sheet.old }
        requires entry { 1 ≤ length costs.old }
        requires rows { row_bytes * split_rows ≤ length chains.old }
        ensures { let K = R.Cost.Cost in
            let cards = cards_between self.now in
            MatchOption result
            (NoneWritten K cards branches costs.old costs.new chains.old chains.new)
            (λ m. (m < self.now.n)
            × SplitWritten K cards branches costs.old costs.new chains.old chains.new m) }
    {
        let split = self.cheapest(branches)?;
        costs[0] = split.total;
        self.write_least(branches.input, split.at, sheet, chains, 0);
        self.write_least(split.at, branches.first, sheet, chains, 1);
        self.write_least(split.at, branches.second, sheet, chains, 2);
        Some(split.at)
    }
}

// A fork over a register's cards. It does not matter what the table and the sheets hold.
pub(crate) fn fork_over<R: Register>(
    register: &R,
    branches: Branches,
    table: &mut [Cell<R::Cost>],
    costs: &mut [R::Cost],
    chains: &mut [u8],
) -> Result<Format, BayFault>
    ensures answer { let m = meant R.Cost.Cost (R.holds register.now) in
        let before = buffers table.old costs.old chains.old in
        let after = buffers table.new costs.new chains.new in
        let b = branches in
        ForkAnswer R.Cost.Cost m b.input b.first b.second before after result }
{
    let n = register.size();
    judge_split(branches, n, table.len(), costs.len(), chains.len())?;
    let mut ticks = [false; MOST_FORMATS];
    let mut there = [FormatSet::none(); MOST_FORMATS];
    let mut standing = [FormatSet::none(); MOST_FORMATS];
    match solve(register, table, &mut there, &mut standing) {
        Found::LoopAt(h) => {
            write_loop(
                register,
                table,
                &mut there,
                &mut standing,
                h,
                &mut ticks,
                chains,
            );
            Err(BayFault::Loop)
        }
        Found::NoLoop(_) => {
            solve_to(table, &mut there, n, FormatSet::below(n));
            let least = LeastCosts {
                register,
                cells: &*table,
                there: &there,
                standing: &standing,
                n,
            };
            least
                .write_split(branches, &mut ticks, costs, chains)
                .ok_or(BayFault::NoSplit)
        }
    }
}
