// The matrix: a register with a place for every pair, in memory that its maker lends.
ghost use Rattle.std.specs.Prelude.{◌≡◌, ◌+◌, ◌-◌, ◌*◌, ◌<◌, ◌≤◌, true, ◌++◌, length, replicate, Some, None, slice_index_or, slice_set};
ghost use Rattle.registers.specs.Fault.{first_cause, refusal, after};
ghost use Rattle.registers.specs.Meaning.{entered, withdrawn, enter_causes, withdraw_causes};
ghost use Rattle.costs.specs.Kind.{admits};
ghost use Rattle.lent.specs.Lent.{begun, readable};
ghost use Rattle.lent.specs.Matrix.{matrix_fits, matrix_causes, matrix, matrix_means, matrix_cleared};

use crate::memory::{judge_memory, nearest_size, size_fits};
use costs::Cost;
use registers::{Format, Register, RegisterFault, judge_entry, judge_pair};

// A register of `n` formats in the first n × n places of `places`, row by row. Where `n` or the memory will not do,
// it has no card and no free place, and every pair is sealed.
pub struct Matrix<'a, C> {
    places: &'a mut [Option<C>],
    n: usize,
}

// When it ends, the memory is given back as the matrix had it.
impl<C> Drop for Matrix<'_, C> {
    fn drop(self)
        ensures { self.exit.0.now ≡ self.entry.places.now }
    {
        let Matrix { places: _, n: _ } = self;
    }
}

// Whether so many places will do for n formats.
pub(crate) fn matrix_fits(n: usize, places: usize) -> bool
    ensures { result ≡ matrix_fits n places }
{
    size_fits(n) && n * n <= places
}

impl<'a, C: Cost> Matrix<'a, C> {
    // Whether a matrix of n formats can be made in this memory, or the first cause why not.
    pub fn check(n: usize, places: &[Option<C>]) -> Result<(), RegisterFault>
        ensures answer { refusal result ≡ first_cause (matrix_causes n (length places.now)) }
    {
        judge_memory(n, matrix_fits(n, places.len()))
    }

    // A matrix with no card; made with what will not do, it refuses every change.
    pub fn new(n: usize, places: &'a mut [Option<C>]) -> Matrix<'a, C>
        ensures holds { matrix (admits C.Cost) result.n result.places.now
            ≡ begun n (matrix_fits n (length places.old)) (n * (n - 1)) }
        ensures memory { result.places.now ≡ matrix_cleared n places.old }
        ensures size { result.n ≡ n }
        ensures lent { result.places.ghost_name ≡ places.entry.ghost_name }
    {
        if matrix_fits(n, places.len()) {
            places[..n * n].fill(None);
        }
        Matrix { places, n }
    }

    // The cost at a place, where a card may have it.
    fn cost_at(&self, place: usize) -> Option<C>
        requires { place < length self.now.places.now }
        ensures { result
            ≡ readable (admits C.Cost) (slice_index_or self.now.places.now place None) }
    {
        self.places[place].filter(|cost| cost.admitted())
    }
}

impl<'a, C: Cost> Register for Matrix<'a, C> {
    type Cost = C;

    ghost holds = { λ m. matrix (admits C.Cost) m.n m.places.now };

    fn size(&self) -> usize {
        nearest_size(self.n)
    }

    fn card(&self, from: Format, to: Format) -> Option<C> {
        judge_pair(self.size(), from, to).ok()?;
        if !matrix_fits(self.n, self.places.len()) {
            return None;
        }
        self.cost_at(from * self.n + to)
    }

    // Also what happens to the lent memory: a granted call writes the pair's place, and nothing else is touched.
    fn enter(&mut self, from: Format, to: Format, cost: C) -> Result<(), RegisterFault>
        ensures answer { let m = matrix_means C.Cost self.old in
            refusal result ≡ first_cause (enter_causes m from to (admits C.Cost cost)) }
        ensures after { let m = matrix_means C.Cost self.old in
            matrix_means C.Cost self.new
            ≡ after (refusal result) m (entered m from to (C.value cost)) }
        ensures memory { let places = self.old.places.now in
            let written = slice_set places (from * self.old.n + to) (Some cost) in
            self.new.places.now ≡ after (refusal result) places written }
        ensures size { self.new.n ≡ self.old.n }
        ensures lent { self.new.places.ghost_name ≡ self.old.places.ghost_name }
    {
        judge_entry(self.size(), from, to, cost)?;
        if !matrix_fits(self.n, self.places.len()) {
            return Err(RegisterFault::Sealed);
        }
        let place = from * self.n + to;
        self.places[place] = Some(cost);
        Ok(())
    }

    // Also what happens to the lent memory: a granted call clears the pair's place, and nothing else is touched.
    fn withdraw(&mut self, from: Format, to: Format) -> Result<(), RegisterFault>
        ensures answer { let m = matrix_means C.Cost self.old in
            refusal result ≡ first_cause (withdraw_causes m from to) }
        ensures after { let m = matrix_means C.Cost self.old in
            matrix_means C.Cost self.new ≡ after (refusal result) m (withdrawn m from to) }
        ensures memory { let places = self.old.places.now in
            let cleared = slice_set places (from * self.old.n + to) None in
            self.new.places.now ≡ after (refusal result) places cleared }
        ensures size { self.new.n ≡ self.old.n }
        ensures lent { self.new.places.ghost_name ≡ self.old.places.ghost_name }
    {
        judge_pair(self.size(), from, to)?;
        if !matrix_fits(self.n, self.places.len()) {
            return Err(RegisterFault::Sealed);
        }
        self.card(from, to).ok_or(RegisterFault::NoCard)?;
        let cleared = from * self.n + to;
        self.places[cleared] = None;
        Ok(())
    }
}
