// A negative cycle: where a survey has found that one stands, it is read off and written. The cards up to its highest format have no
// such cycle, so their least costs back to that format are found as in any route.
ghost use Rattle.std.specs.Prelude.{◌≡◌, ℕ, ◌*◌, ◌<◌, ◌≤◌, length, Decides, Some};
ghost use Rattle.registers.specs.Meaning.{most_formats, stands};
ghost use Rattle.walks.specs.Levels.{Looked, upto};
ghost use Rattle.bay.specs.Buffers.{Beyond};
ghost use Rattle.bay.specs.Cells.{tabled};
ghost use Rattle.bay.specs.FormatSets.{Standing};
ghost use Rattle.bay.specs.Sheet.{row_bytes};
ghost use Rattle.bay.specs.Solved.{Back, LoopWritten, Turns};
ghost use Rattle.bay.specs.Tracing.{Clear};

use crate::cells::{Cell, cost_at};
use crate::elimination::undercut_unit;
use crate::rows::write_round;
use crate::sets::FormatSet;
use crate::substitution::solve_to;
use crate::survey::solve_upto;
use crate::tree::{GoalTable, Ticks};
use registers::{MOST_FORMATS, Register};

// Whether the card from `h` to `v` and the least cost back undercut the unit together.
fn turns<R: Register>(
    register: &R,
    cells: &[Cell<R::Cost>],
    there: &[FormatSet; MOST_FORMATS],
    n: usize,
    h: usize,
    v: usize,
) -> bool
    requires back { let cards = stands R.Cost.Cost (R.holds register.now) in
        Back R.Cost.Cost n cards (tabled cells.now there.now) h }
    requires lower { v < h }
    ensures { let cards = stands R.Cost.Cost (R.holds register.now) in
        Decides result (Turns R.Cost.Cost n cards (tabled cells.now there.now) h v) }
{
    undercut_unit(register.card(h, v), cost_at(cells, there, n, h, v))
}

// A format below `h` such that the card from `h` to it and the least cost back undercut the unit together.
fn way_out<R: Register>(
    register: &R,
    cells: &[Cell<R::Cost>],
    there: &[FormatSet; MOST_FORMATS],
    n: usize,
    h: usize,
) -> usize
    requires back { let cards = stands R.Cost.Cost (R.holds register.now) in
        Back R.Cost.Cost n cards (tabled cells.now there.now) h }
    requires some { let cards = stands R.Cost.Cost (R.holds register.now) in
        (v : ℕ) × (v < h) × Turns R.Cost.Cost n cards (tabled cells.now there.now) h v }
    ensures { let cards = stands R.Cost.Cost (R.holds register.now) in
        (result < h) × Turns R.Cost.Cost n cards (tabled cells.now there.now) h result }
{
    (0..h)
        .find(|v| turns(register, cells, there, n, h, *v))
        .unwrap()
}

// Brings the register's cards up to `h` to their least costs back to `h` in the table of cells, where `h` is what `solve`
// answered: no card leads out of `h` among them, so no closed walk over them undercuts the unit.
fn solve_back<R: Register>(
    register: &R,
    cells: &mut [Cell<R::Cost>],
    there: &mut [FormatSet; MOST_FORMATS],
    standing: &mut [FormatSet; MOST_FORMATS],
    n: usize,
    h: usize,
)
    requires room { n * n ≤ length cells.old }
    requires size { n ≡ (R.holds register.now).size }
    requires few { (0 < n) × (n ≤ most_formats) }
    requires found { let m = R.holds register.now in
        Looked R.Cost.algebra (stands R.Cost.Cost m) m.size (Some h) }
    ensures beyond { Beyond (n * n) cells.old cells.new }
    ensures back { let cards = stands R.Cost.Cost (R.holds register.now) in
        Back R.Cost.Cost n cards (tabled cells.new there.new) h }
    ensures standing { let cards = stands R.Cost.Cost (R.holds register.now) in
        Standing n (upto h cards) standing.new }
{
    let _ = solve_upto(register, cells, there, standing, n, h);
    solve_to(cells, there, n, FormatSet::none().with(h));
}

// Writes into row 0 of the sheet a loop at `h` that undercuts the unit, where `h` is what `solve` answered. The array of ticks
// is clear again at the end.
pub(crate) fn write_loop<R: Register>(
    register: &R,
    cells: &mut [Cell<R::Cost>],
    there: &mut [FormatSet; MOST_FORMATS],
    standing: &mut [FormatSet; MOST_FORMATS],
    h: usize,
    sheet: &mut [bool; MOST_FORMATS],
    chains: &mut [u8],
)
    requires room { let n = (R.holds register.now).size in n * n ≤ length cells.old }
    requires found { let m = R.holds register.now in
        Looked R.Cost.algebra (stands R.Cost.Cost m) m.size (Some h) }
    requires clear { Clear sheet.old }
    requires row { row_bytes ≤ length chains.old }
    ensures clear { Clear sheet.new }
    ensures beyond { let n = (R.holds register.now).size in Beyond (n * n) cells.old cells.new }
    ensures written { let cards = stands R.Cost.Cost (R.holds register.now) in
        LoopWritten R.Cost.algebra cards h chains.old chains.new }
{
    let n = register.size();
    solve_back(register, cells, there, standing, n, h);
    let mut next = [0; MOST_FORMATS];
    let mut ticks = Ticks::over(sheet);
    let back = GoalTable {
        register,
        high: h,
        cells: &*cells,
        there: &*there,
        standing: &*standing,
        n,
        goal: h,
    };
    back.trace(&[true; MOST_FORMATS], &mut ticks, &mut next);
    let from = way_out(register, cells, there, n, h);
    write_round(&next, from, h, chains, 0);
}
