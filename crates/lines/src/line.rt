// What a line of a ticket says, and which lines may stand where.

// The kind of a bay.
#[derive(Clone, Copy, Debug, PartialEq, Eq)]
pub enum Kind {
    Delay,
    Depth,
    Both,
}

// The number that a card line has for a cost, in the unit of the bay's kind.
#[derive(Clone, Copy, Debug, PartialEq, Eq)]
pub enum Amount {
    HalfLines(i32),
    Bits(i32),
    Both { half_lines: i32, bits: i32 },
}

// What a line says.
#[derive(Clone, Copy, Debug)]
pub enum Line {
    Bay {
        kind: Kind,
        size: usize,
    },
    Format {
        number: usize,
        code: [u8; 4],
    },
    Card {
        from: usize,
        to: usize,
        cost: Amount,
    },
    Leg {
        from: usize,
        to: usize,
    },
    End,
}

// Where in a ticket a line stands: first of all; after the bay line, while formats are still to come;
// after the last format, in a bay of this kind; after the first leg.
#[derive(Clone, Copy, Debug, PartialEq, Eq)]
pub enum Stage {
    Start,
    Formats,
    Cards(Kind),
    Legs,
}

// A line that was read, with the place after its line end, that of its first number and that of its code. A place that a line does
// not have is its end: only the line that has it looks there.
#[derive(Clone, Copy, Debug)]
pub struct Read {
    pub line: Line,
    pub end: usize,
    pub number_place: usize,
    pub code_place: usize,
}

// No line was read: the first byte with which no allowed line goes on, or the length of the text, where it ends before the
// line does.
#[derive(Clone, Copy, Debug, PartialEq, Eq)]
pub struct Unfit {
    pub byte: usize,
}
