// The list: a register that takes an entry for each card, in memory that its maker lends.
ghost use Rattle.std.specs.Prelude.{◌≡◌, ℕ, ◌<◌, ◌≤◌, true, length, IfSome, Some, MatchResult};
ghost use Rattle.registers.specs.Fault.{first_cause, refusal, after};
ghost use Rattle.registers.specs.Meaning.{entered, withdrawn, enter_causes, withdraw_causes};
ghost use Rattle.costs.specs.Kind.{admits};
ghost use Rattle.lent.specs.Lent.{begun};
ghost use Rattle.lent.specs.List.{entries_fit, list_fits, list_causes, first_cost, is_for, is_lower, listed, list_cleared};
ghost use Rattle.lent.specs.List.{shifted_up, shifted_down, with_entry, without, FirstLive, Rising, EmptyFrom, InOrder};
ghost use Rattle.lent.specs.List.{FoundAt, NoneAt};

use crate::memory::{judge_memory, nearest_size, size_fits};
use costs::Cost;
use registers::{Format, MOST_FORMATS, Register, RegisterFault, judge_entry, judge_pair};

// A list can use at most so many entries: one for each pair of the most formats.
pub const MOST_ENTRIES: usize = MOST_FORMATS * (MOST_FORMATS - 1);

// The card of a pair.
#[derive(Clone, Copy, Debug)]
pub struct Entry<C> {
    pub from: Format,
    pub to: Format,
    pub cost: C,
}

// A register of `n` formats that takes one of `entries` for each card. The entries that hold a card come first and rise by
// their pairs, so that a pair is found by halving; those behind them are empty. Where `n` or the memory will not do, it has no
// card and no free place, and every pair is sealed.
pub struct List<'a, C: Cost> {
    entries: &'a mut [Option<Entry<C>>],
    n: usize,
    // so many entries hold a card
    count: usize,
    ghost few: { count ≤ length entries.now },
    ghost live: { FirstLive (admits C.Cost) n count entries.now },
    ghost rise: { Rising count entries.now },
    ghost clear: { list_fits n (length entries.now) ≡ true → EmptyFrom count entries.now },
}

// When it ends, the memory is given back as the list had it: the cards in the order of their pairs, and then empty entries.
impl<C: Cost> Drop for List<'_, C> {
    fn drop(self)
        ensures memory { self.exit.0.now ≡ self.entry.entries.now }
        ensures order { let es = self.exit.0.now in
            list_fits self.entry.n (length es) ≡ true →
            (count : ℕ) × InOrder (admits C.Cost) self.entry.n count es }
    {
        let List {
            entries: _,
            n: _,
            count: _,
        } = self;
    }
}

// Whether so many entries will do.
fn entries_fit(entries: usize) -> bool
    ensures { result ≡ entries_fit entries }
{
    1 <= entries && entries <= MOST_ENTRIES
}

// Whether n formats with so many entries will do.
fn list_fits(n: usize, entries: usize) -> bool
    ensures { result ≡ list_fits n entries }
{
    size_fits(n) && entries_fit(entries)
}

// Whether an entry is for a lower pair: by the first format, and then by the second.
fn is_lower<C: Cost>(held: Option<Entry<C>>, from: Format, to: Format) -> bool
    ensures { result ≡ is_lower held from to }
{
    held.is_some_and(|entry| entry.from < from || entry.from == from && entry.to < to)
}

// Whether an entry is for a pair.
fn is_for<C: Cost>(held: Option<Entry<C>>, from: Format, to: Format) -> bool
    ensures { result ≡ is_for held from to }
{
    held.is_some_and(|entry| entry.from == from && entry.to == to)
}

// Puts an entry at a place among the first `count`; those from there on move up by one.
fn shift_up<C: Cost>(entries: &mut [Option<Entry<C>>], count: usize, place: usize, entry: Entry<C>)
    requires place { place ≤ count }
    requires room { count < length entries.old }
    requires clear { EmptyFrom count entries.old }
    ensures { entries.new ≡ shifted_up entries.old place (Some entry) }
{
    entries.copy_within(place..count, place + 1);
    entries[place] = Some(entry);
}

// Takes the entry at a place out of the first `count`; those behind it move down by one.
fn shift_down<C: Cost>(entries: &mut [Option<Entry<C>>], count: usize, place: usize)
    requires place { place < count }
    requires few { count ≤ length entries.old }
    requires clear { EmptyFrom count entries.old }
    ensures { entries.new ≡ shifted_down entries.old place }
{
    entries.copy_within(place + 1..count, place);
    entries[count - 1] = None;
}

impl<'a, C: Cost> List<'a, C> {
    // Whether a list of n formats can be made in this memory, or the first cause why not.
    pub fn check(n: usize, entries: &[Option<Entry<C>>]) -> Result<(), RegisterFault>
        ensures answer { refusal result ≡ first_cause (list_causes n (length entries.now)) }
    {
        judge_memory(n, entries_fit(entries.len()))
    }

    // A list with no card; made with what will not do, it refuses every change.
    pub fn new(n: usize, entries: &'a mut [Option<Entry<C>>]) -> List<'a, C>
        ensures holds { let long = length entries.old in
            listed (admits C.Cost) result.n result.entries.now ≡ begun n (list_fits n long) long }
        ensures memory { result.entries.now ≡ list_cleared n entries.old }
        ensures size { result.n ≡ n }
        ensures lent { result.entries.ghost_name ≡ entries.entry.ghost_name }
    {
        if list_fits(n, entries.len()) {
            entries.fill(None);
        }
        List {
            entries,
            n,
            count: 0,
        }
    }

    // Where a pair's entry lies, or else where it would: behind those of lower pairs.
    fn search(&self, from: Format, to: Format) -> Result<usize, usize>
        requires { list_fits self.now.n (length self.now.entries.now) ≡ true }
        ensures { let l = self.now in
            MatchResult result (FoundAt (admits C.Cost) l.n l.count l.entries.now from to)
            (NoneAt (admits C.Cost) l.n l.count l.entries.now from to) }
    {
        let place = self.entries[..self.count].partition_point(|held| is_lower(*held, from, to));
        if place < self.count && is_for(self.entries[place], from, to) {
            Ok(place)
        } else {
            Err(place)
        }
    }

    // The cost that is held for a pair.
    fn cost_held(&self, from: Format, to: Format) -> Option<C>
        requires { list_fits self.now.n (length self.now.entries.now) ≡ true }
        ensures value { let l = self.now in
            result ≡ first_cost (admits C.Cost) l.n l.entries.now from to }
        ensures admitted { IfSome result (λ x. admits C.Cost x ≡ true) }
    {
        let place = self.search(from, to).ok()?;
        self.entries[place].map(|entry| entry.cost)
    }
}

impl<'a, C: Cost> Register for List<'a, C> {
    ghost use Rattle.lent.specs.Held.{list_means};

    type Cost = C;

    ghost holds = { λ l. listed (admits C.Cost) l.n l.entries.now };

    fn size(&self) -> usize {
        nearest_size(self.n)
    }

    fn card(&self, from: Format, to: Format) -> Option<C> {
        judge_pair(self.size(), from, to).ok()?;
        if !list_fits(self.n, self.entries.len()) {
            return None;
        }
        self.cost_held(from, to)
    }

    // Also what happens to the lent memory: a granted call writes the pair's entry in its place, and those of higher pairs
    // move up by one where the pair is new.
    fn enter(&mut self, from: Format, to: Format, cost: C) -> Result<(), RegisterFault>
        ensures answer { let m = list_means self.old in
            refusal result ≡ first_cause (enter_causes m from to (admits C.Cost cost)) }
        ensures after { let m = list_means self.old in
            list_means self.new ≡ after (refusal result) m (entered m from to (C.value cost)) }
        ensures memory { let es = self.old.entries.now in
            let written = with_entry (admits C.Cost) self.old.n from to cost es in
            self.new.entries.now ≡ after (refusal result) es written }
        ensures size { self.new.n ≡ self.old.n }
        ensures lent { self.new.entries.ghost_name ≡ self.old.entries.ghost_name }
    {
        judge_entry(self.size(), from, to, cost)?;
        if !list_fits(self.n, self.entries.len()) {
            return Err(RegisterFault::Sealed);
        }
        let entry = Entry { from, to, cost };
        match self.search(from, to) {
            Ok(place) => {
                self.entries[place] = Some(entry);
                Ok(())
            }
            Err(place) => {
                if self.count == self.entries.len() {
                    return Err(RegisterFault::NoPlace);
                }
                shift_up(&mut *self.entries, self.count, place, entry);
                self.count += 1;
                Ok(())
            }
        }
    }

    // Also what happens to the lent memory: a granted call clears the pair's entry, and those of higher pairs move down by one.
    fn withdraw(&mut self, from: Format, to: Format) -> Result<(), RegisterFault>
        ensures answer { let m = list_means self.old in
            refusal result ≡ first_cause (withdraw_causes m from to) }
        ensures after { let m = list_means self.old in
            list_means self.new ≡ after (refusal result) m (withdrawn m from to) }
        ensures memory { let es = self.old.entries.now in
            self.new.entries.now ≡ after (refusal result) es (without from to es) }
        ensures size { self.new.n ≡ self.old.n }
        ensures lent { self.new.entries.ghost_name ≡ self.old.entries.ghost_name }
    {
        judge_pair(self.size(), from, to)?;
        if !list_fits(self.n, self.entries.len()) {
            return Err(RegisterFault::Sealed);
        }
        let place = self.search(from, to).map_err(|_| RegisterFault::NoCard)?;
        shift_down(&mut *self.entries, self.count, place);
        self.count -= 1;
        Ok(())
    }
}
