// The shortest-path tree: chains of least cost to a goal, along tight cards, found from a table in which the row of the goal has each
// format's least cost to it.
ghost use Rattle.std.specs.Prelude.{◌≡◌, ℕ, Some, ◌<◌, ◌≤◌, true, false, [], ◌∷◌, ◌++◌, length, MatchOption, Decides, ◌≢◌, replicate, slice_index, slice_index_or, slice_set};
ghost use Rattle.std.specs.Option.{option_map};
ghost use Rattle.registers.specs.Meaning.{most_formats, stands};
ghost use Rattle.walks.specs.Levels.{upto};
ghost use Rattle.bay.specs.Cells.{Roomy, least_in, tabled};
ghost use Rattle.bay.specs.FormatSets.{Standing};
ghost use Rattle.bay.specs.Tracing.{Clear, GoalReady, Rises, Wider};

use crate::cells::{Cell, cost_at};
use crate::sets::FormatSet;
use crate::survey::card_upto;
use costs::Cost;
use registers::{MOST_FORMATS, Register};
use std::marker::Model;

// A tick for each format that a trace passes, in an array by format that is lent. All ticks are gone when it ends.
pub(crate) struct Ticks<'a> {
    sheet: &'a mut [bool; MOST_FORMATS],
    ghost long: { length sheet.now ≡ most_formats },
}

impl<'a> Ticks<'a> {
    // The ticks that are in the array.
    pub(crate) fn over(sheet: &'a mut [bool; MOST_FORMATS]) -> Ticks<'a>
        ensures ticks { result.sheet.now ≡ sheet.old }
        ensures lent { result.sheet.ghost_name ≡ sheet.entry.ghost_name }
    {
        Ticks { sheet }
    }
}

impl Ticks<'_> {
    fn tick(&mut self, format: usize)
        requires { format < most_formats }
        ensures ticked { self.new.sheet.now ≡ slice_set self.old.sheet.now format true }
        ensures same { self.new.sheet.ghost_name ≡ self.old.sheet.ghost_name }
    {
        self.sheet[format] = true;
    }

    fn has(&self, format: usize) -> bool
        requires { format < most_formats }
        ensures { result ≡ slice_index_or self.now.sheet.now format false }
    {
        // The checker covers no read of an element behind a `&mut` that lies behind a `&`.
        let sheet = &*self.sheet;
        sheet[format]
    }
}

impl Drop for Ticks<'_> {
    fn drop(self)
        ensures { Clear self.exit.0.now }
    {
        let Ticks { sheet } = self;
        sheet.fill(false);
    }
}

// The formats that a search has reached, in their order, each with the place of the one that it was reached from, and a mark
// for each.
#[derive(Drop)]
struct Search {
    formats: [u8; MOST_FORMATS],
    origins: [u8; MOST_FORMATS],
    marks: [bool; MOST_FORMATS],
    count: usize,
}

impl Model for Search {
    ghost use Rattle.std.specs.Prelude.{◌≤◌, take};
    ghost use Rattle.registers.specs.Meaning.{most_formats};
    ghost use Rattle.bay.specs.Tracing.{SearchState};

    ghost Value = { SearchState };

    ghost view = { λ s. record {
      formats = take s.count s.formats;
      origins = take s.count s.origins;
      marks = s.marks;
    } };

    ghost invariant = { λ s. s.count ≤ most_formats };
}

impl Search {
    // The format that it begins with is reached from nowhere.
    fn new(start: usize) -> Search
        requires { start < most_formats }
        ensures { result ≡ record {
          formats = start ∷ [];
          origins = 0 ∷ [];
          marks = slice_set (replicate most_formats false) start true;
        } }
    {
        let mut marks = [false; MOST_FORMATS];
        marks[start] = true;
        Search {
            formats: [start as u8; MOST_FORMATS],
            origins: [0; MOST_FORMATS],
            marks,
            count: 1,
        }
    }

    fn count(&self) -> usize
        ensures { result ≡ length self.now.formats }
    {
        self.count
    }

    fn format(&self, place: usize) -> usize
        requires { place < length self.now.formats }
        ensures { result ≡ slice_index self.now.formats place }
    {
        usize::from(self.formats[..self.count][place])
    }

    fn origin(&self, place: usize) -> usize
        requires { place < length self.now.origins }
        ensures { result ≡ slice_index self.now.origins place }
    {
        usize::from(self.origins[..self.count][place])
    }

    fn has(&self, format: usize) -> bool
        requires { format < length self.now.marks }
        ensures { result ≡ slice_index_or self.now.marks format false }
    {
        self.marks[format]
    }

    // Adds a format, which was reached from the one at the place.
    fn push(&mut self, format: usize, origin: usize)
        requires room { length self.old.formats < most_formats }
        requires inside { (format < most_formats) × (origin < length self.old.formats) }
        ensures { self.new ≡ record {
          formats = self.old.formats ++ format ∷ [];
          origins = self.old.origins ++ origin ∷ [];
          marks = slice_set self.old.marks format true;
        } }
    {
        self.formats[self.count] = format as u8;
        self.origins[self.count] = origin as u8;
        self.marks[format] = true;
        self.count += 1;
    }
}

// Whether two costs mean the same. A kind has no `==`: two costs may be held otherwise and mean the same.
fn same<C: Cost>(one: C, other: C) -> bool
    ensures { Decides result (C.value one ≡ C.value other) }
{
    !one.undercuts(other) && !other.undercuts(one)
}

// A table with the least costs to the goal of a trace in the row of the goal, and the register's cards that lead from a format below
// `high` to one up to it.
#[derive(Drop)]
pub(crate) struct GoalTable<'a, R: Register> {
    pub(crate) register: &'a R,
    pub(crate) high: usize,
    pub(crate) cells: &'a [Cell<R::Cost>],
    pub(crate) there: &'a [FormatSet; MOST_FORMATS],
    pub(crate) standing: &'a [FormatSet; MOST_FORMATS],
    pub(crate) n: usize,
    pub(crate) goal: usize,
    // there are n × n cells
    ghost roomy: { Roomy R.Cost.Cost n (tabled cells.now there.now) },
    // the sets have the cards
    ghost stand: { let cards = upto high (stands R.Cost.Cost (R.holds register.now)) in
        Standing n cards standing.now },
    // its costs are the least ones, whichever way that was shown
    ghost ready: { let cards = upto high (stands R.Cost.Cost (R.holds register.now)) in
        let least = least_in R.Cost.Cost n (tabled cells.now there.now) in
        ∥ GoalReady R.Cost.algebra n cards (least goal) goal ∥₁ },
}

impl<R: Register> GoalTable<'_, R> {
    ghost use Rattle.bay.specs.GoalTables.{CoveredBy, ExhaustedBy, LeadsBy, OnwardBy, ScannedBy, SearchedBy, TickedBy, TightBy, TracedBy, cards_of, cost_of, rest_of};

    // The least cost from `from` to the goal.
    pub(crate) fn rest(&self, from: usize) -> Option<R::Cost>
        requires { from < self.now.n }
        ensures rest { option_map R.Cost.value result ≡ rest_of self.now from }
        ensures cost { option_map R.Cost.value result ≡ cost_of self.now from }
    {
        cost_at(self.cells, self.there, self.n, self.goal, from)
    }

    // Whether a card leads from `from` to `to` that is tight on the way to the goal: with the rest of the way from `to`, it
    // costs just `whole`, what is least from `from`.
    fn tight(&self, whole: R::Cost, from: usize, to: usize) -> bool
        requires inside { (from < self.now.n) × (to < self.now.n) }
        requires whole { Some (R.Cost.value whole) ≡ rest_of self.now from }
        ensures { Decides result (TightBy self.now from to) }
    {
        let Some(onward) = self.rest(to) else {
            return false;
        };
        let Some(card) = card_upto(self.register, self.high, from, to) else {
            return false;
        };
        same(card.join(onward), whole)
    }

    // Goes over the tight cards from the format at the place, and adds the formats without a mark that they lead to, until one
    // leads to a format with a tick, which it answers.
    fn scan(&self, ticks: &Ticks, search: &mut Search, place: usize) -> Option<usize>
        requires inside { place < length search.old.formats }
        requires searched { SearchedBy self.now ticks.now.sheet.now search.old }
        ensures searched { SearchedBy self.now ticks.now.sheet.now search.new }
        ensures wider { let before = search.old in
            let after = search.new in
            Wider before.marks after.marks before.formats after.formats }
        ensures answer { let from = slice_index search.old.formats place in
            MatchOption result (ScannedBy self.now search.new.marks from)
            (OnwardBy self.now ticks.now.sheet.now from) }
    {
        let from = search.format(place);
        let whole = self.rest(from)?;
        let reached = self.there[self.goal].and(FormatSet::below(self.n));
        let mut left = self.standing[from].and(reached);
        while let Some(to) = left.first() {
            if !search.has(to) && self.tight(whole, from, to) {
                if ticks.has(to) {
                    return Some(to);
                }
                search.push(to, place);
            }
            left = left.without(to);
        }
        None
    }

    // Searches on, breadth first, until a tight card leads to a format with a tick: answers the place that it leads from, and
    // that format.
    fn find(&self, ticks: &Ticks, search: &mut Search) -> Option<(usize, usize)>
        requires searched { SearchedBy self.now ticks.now.sheet.now search.old }
        ensures searched { SearchedBy self.now ticks.now.sheet.now search.new }
        ensures wider { let before = search.old in
            let after = search.new in
            Wider before.marks after.marks before.formats after.formats }
        ensures answer { let formats = search.new.formats in
            MatchOption result (ExhaustedBy self.now search.new) (λ p. (p.0 < length formats)
            × OnwardBy self.now ticks.now.sheet.now (slice_index formats p.0) p.1) }
    {
        let mut place = 0;
        while place < search.count() {
            if let Some(to) = self.scan(ticks, search, place) {
                return Some((place, to));
            }
            place += 1;
        }
        None
    }

    // Lays the way from the search's first format to the place, and from there to a format with a tick: each format on it gets a
    // tick, and its next format. It is laid from its end, so that each format leads to one that has a tick.
    fn lay(
        &self,
        search: &Search,
        place: usize,
        to: usize,
        ticks: &mut Ticks,
        next: &mut [usize; MOST_FORMATS],
    )
        requires searched { SearchedBy self.now ticks.old.sheet.now search.now }
        requires inside { place < length search.now.formats }
        requires onward { let from = slice_index search.now.formats place in
            OnwardBy self.now ticks.old.sheet.now from to }
        requires leads { LeadsBy self.now ticks.old.sheet.now next.old }
        ensures leads { LeadsBy self.now ticks.new.sheet.now next.new }
        ensures rises { Rises ticks.old.sheet.now ticks.new.sheet.now }
        ensures first { let start = slice_index search.now.formats 0 in
            slice_index_or ticks.new.sheet.now start false ≡ true }
        ensures same { ticks.new.sheet.ghost_name ≡ ticks.old.sheet.ghost_name }
    {
        let mut place = place;
        let mut to = to;
        loop {
            let from = search.format(place);
            ticks.tick(from);
            next[from] = to;
            if place == 0 {
                return;
            }
            to = from;
            place = search.origin(place);
        }
    }

    // Leads from a format to the goal, where a walk does.
    fn lead(&self, start: usize, ticks: &mut Ticks, next: &mut [usize; MOST_FORMATS])
        requires inside { start < self.now.n }
        requires leads { LeadsBy self.now ticks.old.sheet.now next.old }
        ensures leads { LeadsBy self.now ticks.new.sheet.now next.new }
        ensures rises { Rises ticks.old.sheet.now ticks.new.sheet.now }
        ensures covered { CoveredBy self.now ticks.new.sheet.now start }
        ensures same { ticks.new.sheet.ghost_name ≡ ticks.old.sheet.ghost_name }
    {
        if ticks.has(start) {
            return;
        }
        let mut search = Search::new(start);
        if let Some((place, to)) = self.find(ticks, &mut search) {
            self.lay(&search, place, to, ticks, next);
        }
    }

    // Leads from each wanted format to the goal, where a walk does.
    fn lead_all(
        &self,
        wanted: &[bool; MOST_FORMATS],
        ticks: &mut Ticks,
        next: &mut [usize; MOST_FORMATS],
    )
        requires ready { let p = self.now in
            GoalReady R.Cost.algebra p.n (cards_of p) (cost_of p) p.goal }
        requires clear { Clear ticks.old.sheet.now }
        ensures leads { LeadsBy self.now ticks.new.sheet.now next.new }
        ensures covered { (v : ℕ) → v < self.now.n → slice_index_or wanted.now v false ≡ true →
            CoveredBy self.now ticks.new.sheet.now v }
        ensures same { ticks.new.sheet.ghost_name ≡ ticks.old.sheet.ghost_name }
    {
        ticks.tick(self.goal);
        for start in 0..self.n {
            if wanted[start] {
                self.lead(start, ticks, next);
            }
        }
    }

    // Writes into `next` where to go on from each wanted format along a chain of least cost to the goal, and ticks each format that
    // such a chain passes.
    pub(crate) fn trace(
        &self,
        wanted: &[bool; MOST_FORMATS],
        ticks: &mut Ticks,
        next: &mut [usize; MOST_FORMATS],
    )
        requires ready { let p = self.now in
            GoalReady R.Cost.algebra p.n (cards_of p) (cost_of p) p.goal }
        requires clear { Clear ticks.old.sheet.now }
        ensures traced { (v : ℕ) → v < self.now.n → slice_index_or wanted.now v false ≡ true →
            TracedBy self.now next.new v }
        ensures ticked { (v : ℕ) → v < self.now.n → slice_index_or wanted.now v false ≡ true →
            TickedBy self.now ticks.new.sheet.now next.new v }
        ensures same { ticks.new.sheet.ghost_name ≡ ticks.old.sheet.ghost_name }
    {
        self.lead_all(wanted, ticks, next);
    }
}
