// Forward and back substitution: the second and the third stage, which bring a table from least costs through lower formats to least
// costs to goals. The table is turned over first, so that the costs to one goal are a row.
ghost use Rattle.std.specs.Prelude.{◌≡◌, ℕ, suc, ◌+◌, ◌*◌, ◌<◌, ◌≤◌, true, length, Option, slice_index_or, ◌≢◌};
ghost use Rattle.registers.specs.Meaning.{most_formats};
ghost use Rattle.walks.specs.Levels.{NoLoopBelow};
ghost use Rattle.walks.specs.Theorems.{Sound};
ghost use Rattle.bay.specs.Buffers.{Beyond};
ghost use Rattle.bay.specs.Cells.{Roomy, TurnedRow, least_in, tabled};
ghost use Rattle.bay.specs.Eliminated.{Block, FirstDone, Improved, NearBack, SecondTo, ThirdDone, ThirdFrom, TurnedDone};
ghost use Rattle.bay.specs.declared.sets.FormatSet.{FormatSet};
ghost use Rattle.bay.specs.FormatSets.{holds, no_formats};

use crate::Cell;
use crate::cells::{cost_in, set_cost};
use crate::elimination::{Via, by_way};
use crate::sets::FormatSet;
use costs::Cost;
use registers::MOST_FORMATS;

// Swaps the cells of a row with those of the column of the same format, before the diagonal.
fn turn_row<C: Cost>(cells: &mut [Cell<C>], n: usize, s: usize)
    requires room { n * n ≤ length cells.old }
    requires few { n ≤ most_formats }
    requires inside { s < n }
    ensures beyond { Beyond (n * n) cells.old cells.new }
    ensures turned { TurnedRow C.Cost n s cells.old cells.new }
{
    for t in 0..s {
        let there = cost_in(cells, s * n + t);
        let back = cost_in(cells, t * n + s);
        set_cost(cells, s * n + t, back);
        set_cost(cells, t * n + s, there);
    }
}

// The rows whose sets have a format.
fn column(there: &[FormatSet; MOST_FORMATS], n: usize, t: usize) -> FormatSet
    requires few { n ≤ most_formats }
    requires inside { t < n }
    ensures { (s : ℕ) → s < n →
        holds result s ≡ holds (slice_index_or there.now s no_formats) t }
{
    let mut rows = FormatSet::none();
    for s in 0..n {
        if there[s].holds(t) {
            rows = rows.with(s);
        }
    }
    rows
}

// Turns a table over: what stood from a format to another stands from the other to it.
fn turn_over<C: Cost>(cells: &mut [Cell<C>], there: &mut [FormatSet; MOST_FORMATS], n: usize)
    requires roomy { Roomy C.Cost n (tabled cells.old there.old) }
    ensures beyond { Beyond (n * n) cells.old cells.new }
    ensures turned { (s t : ℕ) → s < n → t < n →
        least_in C.Cost n (tabled cells.new there.new) s t
        ≡ least_in C.Cost n (tabled cells.old there.old) t s }
{
    for s in 0..n {
        turn_row(cells, n, s);
    }
    let mut turned = [FormatSet::none(); MOST_FORMATS];
    for s in 0..n {
        turned[s] = column(there, n, s);
    }
    *there = turned;
}

// The second stage by way of one format: the rows of the goals below it, in the columns above it.
fn pass_goals<C: Cost>(
    cells: &mut [Cell<C>],
    there: &mut [FormatSet; MOST_FORMATS],
    n: usize,
    goals: FormatSet,
    j: usize,
)
    requires roomy { Roomy C.Cost n (tabled cells.old there.old) }
    requires inside { j < n }
    ensures roomy { Roomy C.Cost n (tabled cells.new there.new) }
    ensures beyond { Beyond (n * n) cells.old cells.new }
    ensures passed { (card : ℕ → ℕ → Option C.algebra.Value) → Sound C.algebra n card →
        NoLoopBelow C.algebra card n →
        SecondTo C.Cost n card (tabled cells.old there.old) goals (λ s. j) →
        SecondTo C.Cost n card (tabled cells.new there.new) goals (λ s. suc j) }
{
    let via = Via::new(j, there[j], j + 1, n, n);
    for goal in 0..j {
        if goals.holds(goal) {
            by_way(cells, there, n, goal, &via);
        }
    }
}

// The second stage: in the row of each goal, the costs to it from the formats above it, over inner formats below those.
fn second_stage<C: Cost>(
    cells: &mut [Cell<C>],
    there: &mut [FormatSet; MOST_FORMATS],
    n: usize,
    goals: FormatSet,
)
    requires roomy { Roomy C.Cost n (tabled cells.old there.old) }
    ensures roomy { Roomy C.Cost n (tabled cells.new there.new) }
    ensures beyond { Beyond (n * n) cells.old cells.new }
    ensures middle { (card : ℕ → ℕ → Option C.algebra.Value) → Sound C.algebra n card →
        NoLoopBelow C.algebra card n → TurnedDone C.Cost n card (tabled cells.old there.old) →
        ThirdFrom C.Cost n card (tabled cells.new there.new) goals 0 }
{
    for j in 0..n {
        pass_goals(cells, there, n, goals, j);
    }
}

// The third stage by way of one format: the row of the goal, in the columns below the format.
fn pass_back<C: Cost>(
    cells: &mut [Cell<C>],
    there: &mut [FormatSet; MOST_FORMATS],
    n: usize,
    goal: usize,
    j: usize,
)
    requires roomy { Roomy C.Cost n (tabled cells.old there.old) }
    requires inside { (goal < n) × (j < n) × (goal ≢ j) }
    ensures roomy { Roomy C.Cost n (tabled cells.new there.new) }
    ensures beyond { Beyond (n * n) cells.old cells.new }
    ensures passed { let before = tabled cells.old there.old in
        NearBack C.Cost n goal j before →
        Improved C.Cost n j (Block goal (goal + 1) 0 j) before (tabled cells.new there.new) }
{
    if there[goal].holds(j) {
        let via = Via::new(j, there[j], 0, j, n);
        by_way(cells, there, n, goal, &via);
    }
}

// The third stage for one goal: in its row, the least cost from each format to it. Goals go upward: what the stage leaves in the
// row of one serves the later ones.
fn third_stage<C: Cost>(
    cells: &mut [Cell<C>],
    there: &mut [FormatSet; MOST_FORMATS],
    n: usize,
    goal: usize,
)
    requires roomy { Roomy C.Cost n (tabled cells.old there.old) }
    requires inside { goal < n }
    ensures roomy { Roomy C.Cost n (tabled cells.new there.new) }
    ensures beyond { Beyond (n * n) cells.old cells.new }
    ensures done { (card : ℕ → ℕ → Option C.algebra.Value) → Sound C.algebra n card →
        NoLoopBelow C.algebra card n → (goals : FormatSet) → holds goals goal ≡ true →
        ThirdFrom C.Cost n card (tabled cells.old there.old) goals goal →
        ThirdDone C.Cost n card (tabled cells.new there.new) goal
        × ThirdFrom C.Cost n card (tabled cells.new there.new) goals (suc goal)
        × ((s : ℕ) → s < n → (s ≢ goal) → ThirdDone C.Cost n card (tabled cells.old there.old) s →
        ThirdDone C.Cost n card (tabled cells.new there.new) s) }
{
    for j in (0..n).rev() {
        if j != goal {
            pass_back(cells, there, n, goal, j);
        }
    }
    set_cost(cells, goal * n + goal, C::unit());
    there[goal] = there[goal].with(goal);
}

// The second and the third stage for a set of goals, from what the first stage left. The table is turned over: the row of each
// goal has the least cost from each format to it.
pub(crate) fn solve_to<C: Cost>(
    cells: &mut [Cell<C>],
    there: &mut [FormatSet; MOST_FORMATS],
    n: usize,
    goals: FormatSet,
)
    requires roomy { Roomy C.Cost n (tabled cells.old there.old) }
    ensures roomy { Roomy C.Cost n (tabled cells.new there.new) }
    ensures beyond { Beyond (n * n) cells.old cells.new }
    ensures least { (card : ℕ → ℕ → Option C.algebra.Value) → Sound C.algebra n card →
        NoLoopBelow C.algebra card n → FirstDone C.Cost n card (tabled cells.old there.old) →
        (goal : ℕ) → goal < n → holds goals goal ≡ true →
        ThirdDone C.Cost n card (tabled cells.new there.new) goal }
{
    turn_over(cells, there, n);
    second_stage(cells, there, n, goals);
    for goal in 0..n {
        if goals.holds(goal) {
            third_stage(cells, there, n, goal);
        }
    }
}
