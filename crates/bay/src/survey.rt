// What a route finds of a register's cards: they are loaded into a table of cells, and their costs brought to least costs through low
// formats, unless there is a negative cycle.
ghost use Rattle.std.specs.Prelude.{◌≡◌, ℕ, ◌+◌, ◌*◌, ◌<◌, ◌≤◌, true, cond, length, IfSome, None, Some};
ghost use Rattle.std.specs.Option.{option_map};
ghost use Rattle.registers.specs.Meaning.{meant, most_formats, stands};
ghost use Rattle.walks.specs.Levels.{upto};
ghost use Rattle.walks.specs.Theorems.{Sound};
ghost use Rattle.bay.specs.Buffers.{Beyond};
ghost use Rattle.bay.specs.Cells.{Laid, Roomy, cards_in, least_in, meaning_at, tabled};
ghost use Rattle.bay.specs.FormatSets.{Standing, holds};
ghost use Rattle.bay.specs.RowsPassed.{RowsAnswer};
ghost use Rattle.bay.specs.Solved.{Admitted, Solved};

use crate::cells::Cell;
use crate::elimination::{Found, first_stage};
use crate::fault::BayFault;
use crate::sets::FormatSet;
use costs::Cost;
use registers::{MOST_FORMATS, Register};

// The cost of the register's card, if it leads from a format below `high` to one up to it.
pub(crate) fn card_upto<R: Register>(
    register: &R,
    high: usize,
    s: usize,
    t: usize,
) -> Option<R::Cost>
    ensures value { let cards = stands R.Cost.Cost (R.holds register.now) in
        option_map R.Cost.value result ≡ upto high cards s t }
    ensures admitted { IfSome result (λ x. R.Cost.algebra.admits (R.Cost.value x) ≡ true) }
{
    if s < high && t <= high {
        register.card(s, t)
    } else {
        None
    }
}

// Sets the cells of `s` to the costs of its cards that lead from a format below `high` to one up to it. Answers which have one.
fn load_row<R: Register>(
    register: &R,
    row: &mut [Cell<R::Cost>],
    s: usize,
    high: usize,
) -> FormatSet
    requires few { length row.old ≤ most_formats }
    ensures long { length row.new ≡ length row.old }
    ensures loaded { let cards = upto high (stands R.Cost.Cost (R.holds register.now)) in
        (t : ℕ) → t < length row.old →
        cond (holds result t) (Some (meaning_at R.Cost.Cost row.new t)) None ≡ cards s t }
    ensures admitted { let cards = upto high (stands R.Cost.Cost (R.holds register.now)) in
        (t : ℕ) → t < length row.old → Admitted R.Cost.algebra (cards s t) }
{
    let mut there = FormatSet::none();
    for (t, cell) in row.iter_mut().enumerate() {
        if let Some(cost) = card_upto(register, high, s, t) {
            cell.cost = cost;
            there = there.with(t);
        }
    }
    there
}

// Loads the costs of the register's cards that lead from a format below `high` to one up to it. Row by row, since a division for
// each cell would take longer than all else.
fn load<R: Register>(
    register: &R,
    cells: &mut [Cell<R::Cost>],
    there: &mut [FormatSet; MOST_FORMATS],
    n: usize,
    high: usize,
)
    requires room { n * n ≤ length cells.old }
    requires few { (0 < n) × (n ≤ most_formats) }
    ensures beyond { Beyond (n * n) cells.old cells.new }
    ensures roomy { Roomy R.Cost.Cost n (tabled cells.new there.new) }
    ensures loaded { let cards = upto high (stands R.Cost.Cost (R.holds register.now)) in
        (s t : ℕ) → s < n → t < n →
        least_in R.Cost.Cost n (tabled cells.new there.new) s t ≡ cards s t }
    ensures admitted { let cards = upto high (stands R.Cost.Cost (R.holds register.now)) in
        (s t : ℕ) → s < n → t < n → Admitted R.Cost.algebra (cards s t) }
{
    for s in 0..n {
        there[s] = load_row(register, &mut cells[s * n..s * n + n], s, high);
    }
}

// Brings a table that is loaded with cards to least costs over formats below both of a cell's own, unless a closed walk undercuts
// the unit: then answers the lowest format at which one through lower formats does.
fn settle<C: Cost>(cells: &mut [Cell<C>], there: &mut [FormatSet; MOST_FORMATS], n: usize) -> Found
    requires laid { Laid C.Cost n (tabled cells.old there.old) }
    ensures beyond { Beyond (n * n) cells.old cells.new }
    ensures roomy { Roomy C.Cost n (tabled cells.new there.new) }
    ensures solved { let card = cards_in C.Cost n (tabled cells.old there.old) in
        Solved C.Cost n card (tabled cells.new there.new) result }
{
    first_stage(cells, there, n)
}

// The same for the register's cards that lead from a format below `high` to one up to it; `standing` then has the formats that they
// lead to, row by row.
pub(crate) fn solve_upto<R: Register>(
    register: &R,
    cells: &mut [Cell<R::Cost>],
    there: &mut [FormatSet; MOST_FORMATS],
    standing: &mut [FormatSet; MOST_FORMATS],
    n: usize,
    high: usize,
) -> Found
    requires room { n * n ≤ length cells.old }
    requires size { n ≡ (R.holds register.now).size }
    requires few { (0 < n) × (n ≤ most_formats) }
    ensures beyond { Beyond (n * n) cells.old cells.new }
    ensures roomy { Roomy R.Cost.Cost n (tabled cells.new there.new) }
    ensures sound { Sound R.Cost.algebra n (upto high (stands R.Cost.Cost (R.holds register.now))) }
    ensures standing { let cards = upto high (stands R.Cost.Cost (R.holds register.now)) in
        Standing n cards standing.new }
    ensures solved { let cards = upto high (stands R.Cost.Cost (R.holds register.now)) in
        Solved R.Cost.Cost n cards (tabled cells.new there.new) result }
{
    load(register, cells, there, n, high);
    *standing = *there;
    settle(cells, there, n)
}

// Brings the register's cards to least costs over formats below both of a cell's own in the table of cells, unless a closed
// walk undercuts the unit: then answers the lowest format at which one through lower formats does. `standing` then has the formats
// that the cards lead to, row by row.
pub(crate) fn solve<R: Register>(
    register: &R,
    cells: &mut [Cell<R::Cost>],
    there: &mut [FormatSet; MOST_FORMATS],
    standing: &mut [FormatSet; MOST_FORMATS],
) -> Found
    requires room { let n = (R.holds register.now).size in n * n ≤ length cells.old }
    ensures beyond { let n = (R.holds register.now).size in Beyond (n * n) cells.old cells.new }
    ensures roomy { let n = (R.holds register.now).size in
        Roomy R.Cost.Cost n (tabled cells.new there.new) }
    ensures sound { let m = R.holds register.now in
        Sound R.Cost.algebra m.size (stands R.Cost.Cost m) }
    ensures standing { let m = R.holds register.now in
        Standing m.size (stands R.Cost.Cost m) standing.new }
    ensures solved { let m = R.holds register.now in
        Solved R.Cost.Cost m.size (stands R.Cost.Cost m) (tabled cells.new there.new) result }
{
    let n = register.size();
    solve_upto(register, cells, there, standing, n, n)
}

// How many rows the first stage goes through over the register's cards: the pairs of a format h and of a higher one from which a
// walk with lower inner formats leads to h. It needs no legs, and it does not matter what the table holds; its n × n cells are
// then free. Where a closed walk undercuts the unit, that is told instead.
pub fn rows_passed<R: Register>(
    register: &R,
    table: &mut [Cell<R::Cost>],
) -> Result<usize, BayFault>
    ensures { let m = meant R.Cost.Cost (R.holds register.now) in
        RowsAnswer R.Cost.Cost m table.old table.new result }
{
    let n = register.size();
    if table.len() < n * n {
        return Err(BayFault::TableShort);
    }
    let mut there = [FormatSet::none(); MOST_FORMATS];
    let mut standing = [FormatSet::none(); MOST_FORMATS];
    match solve(register, table, &mut there, &mut standing) {
        Found::LoopAt(_) => Err(BayFault::Loop),
        Found::NoLoop(rows) => Ok(rows),
    }
}
