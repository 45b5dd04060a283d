// The legs of a bay, in an array of fixed length, and what a bay does with them.
ghost use Rattle.std.specs.Prelude.{◌≡◌, ◌<◌, ◌≤◌, [], ◌∷◌, ◌++◌, length, MatchOption, slice_index_or, slice_set, take, drop};
ghost use Rattle.bay.specs.Leg.{no_leg, noted, opened};
ghost use Rattle.bay.specs.Limits.{most_legs};

use registers::Format;

// A bay has at most so many legs.
pub const MOST_LEGS: usize = 32;

// What the last route said of a leg.
#[derive(Clone, Copy, Debug, PartialEq, Eq)]
pub enum Note {
    // Nothing that still holds.
    Open,
    NoChain,
    // A chain of so many formats.
    Chain(usize),
}

// The two formats of a leg.
#[repr(C)]
#[derive(Clone, Copy, Debug, PartialEq, Eq)]
pub struct Ends {
    pub from: Format,
    pub to: Format,
}

// A chain is wanted from one format to another, or to the same. They stand in the leg itself, since a host reads `leg.from` of a
// leg that is shown.
#[derive(Clone, Copy, Debug, PartialEq, Eq)]
pub struct Leg {
    pub from: Format,
    pub to: Format,
    pub note: Note,
}

// The legs by number; the array beyond `count` is of no account. A plain struct, so that a bay has no heap and is moved whole.
#[derive(Clone, Copy)]
pub struct Legs {
    pub list: [Leg; MOST_LEGS],
    pub count: usize,
    ghost long: { length list ≡ most_legs },
    ghost few: { count ≤ most_legs },
}

const NO_LEG: Leg = Leg {
    from: 0,
    to: 0,
    note: Note::Open,
};

// The notes of the first legs become open. A function of its own: the legs can lend their array whole, but no slice of it.
fn open_notes(list: &mut [Leg], count: usize)
    requires { count ≤ length list.old }
    ensures { list.new ≡ opened (take count list.old) ++ drop count list.old }
{
    for leg in list[..count].iter_mut() {
        leg.note = Note::Open;
    }
}

impl Legs {
    ghost use Rattle.bay.specs.Legs.{booked, struck};

    // No legs.
    pub(crate) fn new() -> Legs
        ensures { booked result ≡ [] }
    {
        Legs {
            list: [NO_LEG; MOST_LEGS],
            count: 0,
        }
    }

    // How many legs there are.
    pub(crate) fn len(&self) -> usize
        ensures value { result ≡ length (booked self.now) }
        ensures bound { result ≤ most_legs }
    {
        self.count
    }

    // The legs by number.
    pub(crate) fn as_slice(&self) -> &[Leg]
        ensures { result.now ≡ booked self.now }
    {
        &self.list[..self.count]
    }

    // Leg `number`, if there is one.
    pub(crate) fn get(&self, number: usize) -> Option<Leg>
        ensures { let legs = booked self.now in MatchOption result (length legs ≤ number)
            (λ leg. (number < length legs) × (leg ≡ slice_index_or legs number no_leg)) }
    {
        self.as_slice().get(number).copied()
    }

    // One leg more at the end.
    pub(crate) fn push(&mut self, leg: Leg)
        requires { length (booked self.old) < most_legs }
        ensures { booked self.new ≡ booked self.old ++ leg ∷ [] }
    {
        self.list[self.count] = leg;
        self.count += 1;
    }

    // Sets the note of one leg.
    pub(crate) fn set_note(&mut self, number: usize, note: Note)
        requires { number < length (booked self.old) }
        ensures { let legs = booked self.old in
            let leg = noted note (slice_index_or legs number no_leg) in
            booked self.new ≡ slice_set legs number leg }
    {
        let leg = &mut self.list[number];
        leg.note = note;
    }

    // Every note becomes open.
    pub(crate) fn open_all(&mut self)
        ensures { booked self.new ≡ opened (booked self.old) }
    {
        open_notes(&mut self.list, self.count);
    }

    // Takes one leg out, and later legs move down by one.
    pub(crate) fn remove(&mut self, number: usize)
        requires { number < length (booked self.old) }
        ensures { booked self.new ≡ struck number (booked self.old) }
    {
        self.list.copy_within(number + 1..self.count, number);
        self.count -= 1;
    }
}
