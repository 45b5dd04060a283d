// Elimination (Floyd–Warshall): a table of the costs of cards is brought, format after format, to least costs through lower formats,
// unless a negative cycle comes up: a closed walk that undercuts the unit.
// The cells are a slice with n beside it, as its callers hold them, and `there` has a set for each row: which of its cells have a cost.
ghost use Rattle.std.specs.Prelude.{◌≡◌, ℕ, ◌+◌, ◌*◌, ◌<◌, ◌≤◌, ◌⊎◌, true, false, cond, length, Decides, Some, is_some, ◌≢◌, slice_index_or};
ghost use Rattle.std.specs.Option.{option_map};
ghost use Rattle.costs.specs.Algebra.{IsJoin};
ghost use Rattle.registers.specs.Meaning.{most_formats};
ghost use Rattle.walks.specs.Levels.{Joinable, UndercutUnit};
ghost use Rattle.bay.specs.Buffers.{Beyond};
ghost use Rattle.bay.specs.Cells.{Laid, Roomy, cards_in, least_in, meaning_at, tabled};
ghost use Rattle.bay.specs.Eliminated.{Block, Closes, FirstFound, Improved, InRow, Leads, NearBy, Picked, PivotReady, RowReady, Spans, Tally};
ghost use Rattle.bay.specs.FormatSets.{holds, no_formats};

use crate::Cell;
use crate::cells::{cost_at, cost_in, set_cost};
use crate::sets::FormatSet;
use costs::Cost;
use registers::MOST_FORMATS;

// The vector code for a row takes so many cells at once.
const LANES: usize = 16;

// The one or the other, by a mark and without a branch, so that a loop over a row becomes vector code.
fn pick<C: Cost>(mark: bool, one: C, other: C) -> C
    ensures { result ≡ cond mark one other }
{
    if mark { one } else { other }
}

// A format by way of which rows are improved, and the formats of a row that it leads to: as a set, and with a mark for each, which
// lie in a span of whole vectors as far as the row goes.
#[derive(Clone, Copy)]
pub(crate) struct Via {
    at: usize,
    low: usize,
    high: usize,
    reached: FormatSet,
    marks: [bool; MOST_FORMATS],
}

impl Via {
    // The format `at`, with those formats of its row that stand from `low` to `high`.
    pub(crate) fn new(at: usize, row: FormatSet, low: usize, high: usize, n: usize) -> Via
        requires { (low ≤ high) × (high ≤ n) × (n ≤ most_formats) }
        ensures at { result.at ≡ at }
        ensures leads { Leads row low high result.reached }
        ensures spans { Spans n result }
    {
        let reached = row
            .and(FormatSet::below(high))
            .except(FormatSet::below(low));
        Via {
            at,
            low: low / LANES * LANES,
            high: n.min(high.div_ceil(LANES) * LANES),
            reached,
            marks: reached.marks(),
        }
    }
}

// Sets the cells of a row that have no cost yet, and get one by way of a format.
fn fill<C: Cost>(cells: &mut [Cell<C>], n: usize, s: usize, at: usize, fresh: FormatSet, held: C)
    requires room { n * n ≤ length cells.old }
    requires few { n ≤ most_formats }
    requires inside { (s < n) × (at < n) × (s ≢ at) }
    requires fresh { (t : ℕ) → holds fresh t ≡ true → t < n }
    ensures beyond { Beyond (n * n) cells.old cells.new }
    ensures others { (k : ℕ) → ((t : ℕ) → holds fresh t ≡ true → k ≢ s * n + t) →
        meaning_at C.Cost cells.new k ≡ meaning_at C.Cost cells.old k }
    ensures filled { (t : ℕ) → holds fresh t ≡ true →
        IsJoin C.algebra (C.value held) (meaning_at C.Cost cells.old (at * n + t))
        (meaning_at C.Cost cells.new (s * n + t)) }
{
    let mut left = fresh;
    while let Some(t) = left.first() {
        let cost = held.join(cost_in(cells, at * n + t));
        set_cost(cells, s * n + t, cost);
        left = left.without(t);
    }
}

// Sets the cells of a row to the better of their own costs and the ways by a format, where they have a mark. A combination with
// what stands in a cell without a cost is made and not used.
fn improve<C: Cost>(cells: &mut [Cell<C>], n: usize, s: usize, via: &Via, held: C)
    requires room { n * n ≤ length cells.old }
    requires few { n ≤ most_formats }
    requires inside { (s < n) × (via.now.at < n) × (s ≢ via.now.at) }
    requires spans { (via.now.low ≤ via.now.high) × (via.now.high ≤ n) }
    ensures beyond { Beyond (n * n) cells.old cells.new }
    ensures others { (k : ℕ) → (k < s * n + via.now.low) ⊎ (s * n + via.now.high ≤ k) →
        meaning_at C.Cost cells.new k ≡ meaning_at C.Cost cells.old k }
    ensures better { (t : ℕ) → via.now.low ≤ t → t < via.now.high →
        Picked C.algebra (slice_index_or via.now.marks t false) (C.value held)
        (meaning_at C.Cost cells.old (via.now.at * n + t))
        (meaning_at C.Cost cells.old (s * n + t)) (meaning_at C.Cost cells.new (s * n + t)) }
{
    let row = s * n;
    let pivot = via.at * n;
    for t in via.low..via.high {
        let sum = held.join(cost_in(cells, pivot + t));
        let cost = cost_in(cells, row + t);
        let picked = pick(via.marks[t] & sum.undercuts(cost), sum, cost);
        set_cost(cells, row + t, picked);
    }
}

// Brings the cells of a row to the better of their own costs and the ways by a format, where that leads to them. A row with no
// cost to the format has nothing to pass on, and is left at once: answers whether it has one.
pub(crate) fn by_way<C: Cost>(
    cells: &mut [Cell<C>],
    there: &mut [FormatSet; MOST_FORMATS],
    n: usize,
    s: usize,
    via: &Via,
) -> bool
    requires ready { RowReady C.Cost n s via.now (tabled cells.old there.old) }
    ensures beyond { Beyond (n * n) cells.old cells.new }
    ensures passed { NearBy C.Cost n s via.now (tabled cells.old there.old) →
        Improved C.Cost n via.now.at (InRow s via.now.reached)
        (tabled cells.old there.old) (tabled cells.new there.new) }
    ensures answer { result
        ≡ is_some (least_in C.Cost n (tabled cells.old there.old) s via.now.at) }
    ensures roomy { Roomy C.Cost n (tabled cells.new there.new) }
    ensures others { (a : ℕ) → a ≢ s →
        slice_index_or there.new a no_formats ≡ slice_index_or there.old a no_formats }
{
    let row = there[s];
    if !row.holds(via.at) {
        return false;
    }
    let held = cost_in(cells, s * n + via.at);
    fill(cells, n, s, via.at, via.reached.except(row), held);
    improve(cells, n, s, via, held);
    there[s] = row.or(via.reached);
    true
}

// Every cell of two formats from `low` on, by way of a lower one: the diagonal cells too, which belong to no pair. Answers how many
// rows have a cost to it.
fn pass<C: Cost>(
    cells: &mut [Cell<C>],
    there: &mut [FormatSet; MOST_FORMATS],
    n: usize,
    at: usize,
) -> usize
    requires ready { PivotReady C.Cost n at (tabled cells.old there.old) }
    ensures passed { Improved C.Cost n at (Block (at + 1) n (at + 1) n)
        (tabled cells.old there.old) (tabled cells.new there.new) }
    ensures rows { let before = tabled cells.old there.old in
        Tally (λ s. is_some (least_in C.Cost n before s at)) (at + 1) n result }
    ensures few { result ≤ n }
{
    let via = Via::new(at, there[at], at + 1, n, n);
    let mut count = 0;
    for s in at + 1..n {
        count += usize::from(by_way(cells, there, n, s, &via));
    }
    count
}

// Whether the cost there and the cost back are both there, and undercut the unit together.
pub(crate) fn undercut_unit<C: Cost>(there: Option<C>, back: Option<C>) -> bool
    requires { ∥ Joinable C.algebra (option_map C.value there) (option_map C.value back) ∥₁ }
    ensures { Decides result
        (UndercutUnit C.algebra (option_map C.value there) (option_map C.value back)) }
{
    match (there, back) {
        (Some(there), Some(back)) => there.join(back).undercuts(C::unit()),
        _ => false,
    }
}

// Whether the costs from `at` to `k` and back undercut the unit.
fn closes<C: Cost>(
    cells: &[Cell<C>],
    there: &[FormatSet; MOST_FORMATS],
    n: usize,
    at: usize,
    k: usize,
) -> bool
    requires ready { PivotReady C.Cost n at (tabled cells.now there.now) }
    requires lower { k < at }
    ensures { Decides result (Closes C.Cost n (tabled cells.now there.now) at k) }
{
    undercut_unit(
        cost_at(cells, there, n, at, k),
        cost_at(cells, there, n, k, at),
    )
}

// Whether the costs from `at` to some lower format and back undercut the unit.
fn looks<C: Cost>(cells: &[Cell<C>], there: &[FormatSet; MOST_FORMATS], n: usize, at: usize) -> bool
    requires ready { PivotReady C.Cost n at (tabled cells.now there.now) }
    ensures yes { result ≡ true →
        (k : ℕ) × (k < at) × Closes C.Cost n (tabled cells.now there.now) at k }
    ensures no { result ≡ false →
        (k : ℕ) → k < at → Closes C.Cost n (tabled cells.now there.now) at k → ⊥ }
{
    (0..at).any(|k| closes(cells, there, n, at, k))
}

// What the first stage finds: the first format at which a closed walk through lower ones undercuts the unit; or that there is none,
// and how many rows it went through.
#[derive(Clone, Copy)]
pub(crate) enum Found {
    LoopAt(usize),
    NoLoop(usize),
}

// The first stage: the first format at which a closed walk through lower ones undercuts the unit, or every cell's least cost
// over inner formats below both of its own.
pub(crate) fn first_stage<C: Cost>(
    cells: &mut [Cell<C>],
    there: &mut [FormatSet; MOST_FORMATS],
    n: usize,
) -> Found
    requires laid { Laid C.Cost n (tabled cells.old there.old) }
    ensures beyond { Beyond (n * n) cells.old cells.new }
    ensures roomy { Roomy C.Cost n (tabled cells.new there.new) }
    ensures found { let card = cards_in C.Cost n (tabled cells.old there.old) in
        FirstFound C.Cost n card (tabled cells.new there.new) result }
{
    let mut rows = 0;
    for h in 0..n {
        if looks(cells, there, n, h) {
            return Found::LoopAt(h);
        }
        rows += pass(cells, there, n, h);
    }
    Found::NoLoop(rows)
}
