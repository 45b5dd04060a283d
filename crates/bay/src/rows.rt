// Rows of a sheet, each with the formats of one chain.
ghost use Rattle.std.specs.Prelude.{◌≡◌, ℕ, ◌+◌, ◌*◌, ◌<◌, ◌≤◌, List, [], ◌∷◌, ◌++◌, length, drop};
ghost use Rattle.registers.specs.Meaning.{most_formats};
ghost use Rattle.bay.specs.Sheet.{most_in_row, put_row, row_bytes, row_of};
ghost use Rattle.bay.specs.Tracing.{Follows, Leads, LeadsIn};

use registers::MOST_FORMATS;

// A row has room for so many formats: a loop over all formats repeats its first.
const MOST_IN_ROW: usize = MOST_FORMATS + 1;

// The bytes of a row: the number of its formats stands first.
pub const ROW: usize = 1 + MOST_IN_ROW;

// What stands behind the formats of a row.
const NO_FORMAT: u8 = 255;

// Writes the formats met by following `next` from `from` to the goal into the first of the places. Answers how many they are.
fn follow(next: &[usize; MOST_FORMATS], from: usize, goal: usize, places: &mut [u8]) -> usize
    requires leads { LeadsIn (length places.old) next.now goal from }
    ensures { (fs : List ℕ) → Follows next.now goal from fs →
        (result ≡ length fs) × (places.new ≡ fs ++ drop (length fs) places.old) }
{
    let mut here = from;
    for (i, place) in places.iter_mut().enumerate() {
        *place = here as u8;
        if here == goal {
            return i + 1;
        }
        here = next[here];
    }
    unreachable!()
}

// Writes what stands before and behind so many formats of a row.
fn frame(row: &mut [u8], count: usize)
    requires whole { length row.old ≡ row_bytes }
    requires few { count ≤ most_in_row }
    ensures { (fs rest : List ℕ) → drop 1 row.old ≡ fs ++ rest → count ≡ length fs →
        row.new ≡ row_of fs }
{
    row[0] = count as u8;
    row[1 + count..].fill(NO_FORMAT);
}

// The three that write a row ask that it lies in the sheet, which is a plain slice for its holder.

// Writes into row `k` of the sheet the chain met by following `next` from `from` to the goal. Answers how many formats it has.
pub(crate) fn write_chain(
    next: &[usize; MOST_FORMATS],
    from: usize,
    goal: usize,
    sheet: &mut [u8],
    k: usize,
) -> usize
    requires room { row_bytes * k + row_bytes ≤ length sheet.old }
    requires leads { Leads next.now goal from }
    ensures written { (fs : List ℕ) → Follows next.now goal from fs →
        (result ≡ length fs) × (sheet.new ≡ put_row sheet.old k (row_of fs)) }
{
    let row = &mut sheet[ROW * k..ROW * k + ROW];
    let count = follow(next, from, goal, &mut row[1..]);
    frame(row, count);
    count
}

// Writes into row `k` of the sheet the goal, and then the chain met by following `next` from `from` to the goal.
pub(crate) fn write_round(
    next: &[usize; MOST_FORMATS],
    from: usize,
    goal: usize,
    sheet: &mut [u8],
    k: usize,
)
    requires room { row_bytes * k + row_bytes ≤ length sheet.old }
    requires leads { LeadsIn most_formats next.now goal from }
    requires inside { goal < most_formats }
    ensures written { (fs : List ℕ) → Follows next.now goal from fs →
        sheet.new ≡ put_row sheet.old k (row_of (goal ∷ fs)) }
{
    let row = &mut sheet[ROW * k..ROW * k + ROW];
    row[1] = goal as u8;
    let count = follow(next, from, goal, &mut row[2..]);
    frame(row, 1 + count);
}

// Writes into row `k` of the sheet that there is no chain.
pub(crate) fn write_no_chain(sheet: &mut [u8], k: usize)
    requires room { row_bytes * k + row_bytes ≤ length sheet.old }
    ensures written { sheet.new ≡ put_row sheet.old k (row_of []) }
{
    let row = &mut sheet[ROW * k..ROW * k + ROW];
    frame(row, 0);
}
