// The line reader: it takes the bytes of a line one by one, and knows at each what may still come.
ghost use Rattle.std.specs.Prelude.{◌≡◌, ◌==◌, ◌+◌, true, false, ◌||◌, length, take, None, if◌then◌else◌};
ghost use Rattle.lines.specs.Signs.{digit, letter};
ghost use Rattle.lines.specs.declared.line.Line.TheVariants.{Card};
ghost use Rattle.lines.specs.declared.reader.State.TheVariants.{InWord, InKind, PairEnd, Lines, InCode, Ending};
ghost use Rattle.lines.specs.Grammar.{line_text, FourSigns, number_begins, code_begins, ReadLine, Alone};
ghost use Rattle.lines.specs.Rests.{line_rest, to_come, left, after_byte, takes_letter, with_letter};
ghost use Rattle.lines.specs.Rests.{of_two, after_lines, after_bits};

use crate::line::{Amount, Kind, Line, Read, Stage, Unfit};
use crate::numeral::Numeral;
use crate::sort::{Sort, sort_of};
use crate::words::{Word, begins_kind, kind_by, size_begins, word_by};

// The words of the kinds have at most so many letters.
const KIND_LETTERS: usize = 5;

// What is being read. In a word or a code, `at` says how far. A delay is read as whole lines, with a point and a 5 after them for half
// a line, and a depth as bits; a cost of two parts has its own opening and closing sign.
#[derive(Clone, Copy, Debug, PartialEq, Eq)]
pub enum State {
    Opening,
    First,
    InWord,
    InKind,
    Pair,
    Size,
    Number,
    From,
    To,
    PairEnd,
    Parts,
    Lines,
    Point,
    Half,
    Bits,
    Closing,
    InCode,
    Ending,
    Over,
}

// One reader takes a whole line and changes in place, so each thing that it may know has a field: what its state does not
// speak of is of no account. Its methods answer whether the sign fits, and no more: a false answer ends the reading. What may come
// after the sign is the one clause of each, since that is what each is for.
#[derive(Drop)]
pub struct Reader {
    stage: Stage,
    state: State,
    word: Word,
    kind: Kind,
    at: usize,
    // of the word of a kind, the letters so far
    letters: [u8; KIND_LETTERS],
    // the number that is read, and the numbers before it
    numeral: Numeral,
    first: u32,
    second: u32,
    half_lines: i32,
    code: [u8; 4],
    line: Line,
}

impl Reader {
    // Before the first byte.
    fn new(stage: Stage) -> Reader
        ensures { to_come result ≡ line_rest stage }
    {
        Reader {
            stage,
            state: State::Opening,
            word: Word::End,
            kind: Kind::Delay,
            at: 0,
            letters: [0; KIND_LETTERS],
            numeral: Numeral::new(),
            first: 0,
            second: 0,
            half_lines: 0,
            code: [0; 4],
            line: Line::End,
        }
    }

    // Before the first digit of a number.
    fn begin(&mut self, state: State)
        ensures exit { self.new ≡ record self.old { state = state; numeral = self.new.numeral } }
        ensures minus { self.new.numeral.minus ≡ false }
        ensures value { self.new.numeral.value ≡ None }
    {
        self.state = state;
        self.numeral = Numeral::new();
    }

    // After the last sign of a line.
    fn finish(&mut self, line: Line)
        ensures { self.new ≡ record self.old { line = line; state = Ending } }
    {
        self.line = line;
        self.state = State::Ending;
    }

    // One more letter of these.
    fn letter(&mut self, letters: &[u8], sign: u8) -> bool
        ensures fits { result ≡ takes_letter letters.now self.old.at sign }
        ensures exit { self.new ≡ (if result then with_letter self.old else self.old) }
    {
        if letters.get(self.at) == Some(&sign) {
            self.at += 1;
            return true;
        }
        false
    }

    // The space after a word.
    fn leave_word(&mut self) -> bool
        requires { self.old.state ≡ InWord }
        ensures { left result self.new ≡ after_byte (to_come self.old) 32 }
    {
        if self.at < self.word.letters().len() {
            return false;
        }
        match self.word {
            Word::Bay => {
                self.at = 0;
                self.state = State::InKind;
            }
            Word::Format => self.begin(State::Number),
            Word::Card | Word::Leg => self.state = State::Pair,
            Word::End => return false,
        }
        true
    }

    // The closing sign after a word.
    fn close_word(&mut self) -> bool
        requires { self.old.state ≡ InWord }
        ensures { left result self.new ≡ after_byte (to_come self.old) 41 }
    {
        if self.at < self.word.letters().len() {
            return false;
        }
        // A match: over `self.word != Word::End` the proof did not close.
        match self.word {
            Word::End => {
                self.finish(Line::End);
                true
            }
            _ => false,
        }
    }

    // The letters of a kind that were collected.
    fn collected(&self) -> &[u8]
        ensures { result.now ≡ take self.now.at self.now.letters }
    {
        &self.letters[..self.at.min(KIND_LETTERS)]
    }

    // One more letter of a kind: some kind's word must begin with what is collected then.
    fn kind_letter(&mut self, sign: u8) -> bool
        requires at { self.old.state ≡ InKind }
        requires letter { letter sign ≡ true }
        ensures { left result self.new ≡ after_byte (to_come self.old) sign }
    {
        if self.at >= KIND_LETTERS {
            return false;
        }
        self.letters[self.at] = sign;
        self.at += 1;
        begins_kind(self.collected())
    }

    // The space after a kind.
    fn leave_kind(&mut self) -> bool
        requires { self.old.state ≡ InKind }
        ensures { left result self.new ≡ after_byte (to_come self.old) 32 }
    {
        let Some(kind) = kind_by(self.collected()) else {
            return false;
        };
        self.kind = kind;
        self.begin(State::Size);
        true
    }

    // The sign after a pair: a leg is at its end, and a card goes on to its cost.
    fn leave_pair(&mut self, sign: u8) -> bool
        requires at { self.old.state ≡ PairEnd }
        ensures { left result self.new ≡ after_byte (to_come self.old) sign }
    {
        match (self.word, sign) {
            (Word::Leg, b')') => {
                self.finish(Line::Leg {
                    from: self.first as usize,
                    to: self.second as usize,
                });
                true
            }
            (Word::Leg, _) => false,
            (_, b' ') => {
                // The kind is that of the bay line.
                match self.stage {
                    Stage::Cards(Kind::Delay) => self.begin(State::Lines),
                    Stage::Cards(Kind::Both) => self.state = State::Parts,
                    _ => self.begin(State::Bits),
                }
                true
            }
            _ => false,
        }
    }

    // The card line with this cost.
    fn card(&self, cost: Amount) -> Line
        ensures { result ≡ Card self.now.first self.now.second cost }
    {
        Line::Card {
            from: self.first as usize,
            to: self.second as usize,
            cost,
        }
    }

    // Whether a cost has two parts.
    fn of_two(&self) -> bool
        ensures { result ≡ of_two self.now.stage }
    {
        matches!(self.stage, Stage::Cards(Kind::Both))
    }

    // The sign after a delay: a card is at its end, and a cost of two parts goes on to the second.
    fn leave_lines(&mut self, sign: u8) -> bool
        ensures { let delay = after_lines (of_two self.old.stage) self.old.first self.old.second in
            left result self.new ≡ after_byte (delay self.old.half_lines) sign }
    {
        match (self.of_two(), sign) {
            (true, b' ') => {
                self.begin(State::Bits);
                true
            }
            (false, b')') => {
                let half_lines = self.half_lines;
                self.finish(self.card(Amount::HalfLines(half_lines)));
                true
            }
            _ => false,
        }
    }

    // The sign after whole lines, which are no -0.
    fn whole_lines(&mut self, sign: u8) -> bool
        requires at { self.old.state ≡ Lines }
        requires ends { (sign == 32 || sign == 41) ≡ true }
        ensures { left result self.new ≡ after_byte (to_come self.old) sign }
    {
        let Some(lines) = self.numeral.value else {
            return false;
        };
        if self.numeral.minus && lines == 0 {
            return false;
        }
        self.half_lines = self.numeral.signed(2 * lines);
        self.leave_lines(sign)
    }

    // The closing sign after a depth: a card is at its end, and a cost of two parts has one more.
    fn leave_bits(&mut self, bits: i32)
        ensures { let two = of_two self.old.stage in
            let depth = after_bits two self.old.first self.old.second self.old.half_lines in
            to_come self.new ≡ after_byte (depth bits) 41 }
    {
        if self.of_two() {
            let half_lines = self.half_lines;
            self.line = self.card(Amount::Both { half_lines, bits });
            self.state = State::Closing;
        } else {
            self.finish(self.card(Amount::Bits(bits)));
        }
    }

    // One more sign of a code.
    fn code_sign(&mut self, sign: u8) -> bool
        requires at { self.old.state ≡ InCode }
        requires fits { (letter sign || digit sign) ≡ true }
        ensures { left result self.new ≡ after_byte (to_come self.old) sign }
    {
        if self.at >= 4 {
            return false;
        }
        self.code[self.at] = sign;
        self.at += 1;
        true
    }

    // Takes the next byte. False where no allowed line goes on with it. One match, since what may come depends on the state and
    // on the sort of the sign together.
    fn take(&mut self, sign: u8) -> bool
        ensures { left result self.new ≡ after_byte (to_come self.old) sign }
    {
        match (self.state, sort_of(sign as char)) {
            (State::Opening, Sort::Open) => {
                self.state = State::First;
                true
            }
            (State::First, Sort::Letter) => {
                let Some(word) = word_by(self.stage, sign) else {
                    return false;
                };
                self.word = word;
                self.at = 1;
                self.state = State::InWord;
                true
            }
            (State::InWord, Sort::Letter) => self.letter(self.word.letters(), sign),
            (State::InWord, Sort::Space) => self.leave_word(),
            (State::InWord, Sort::Close) => self.close_word(),
            (State::InKind, Sort::Letter) => self.kind_letter(sign),
            (State::InKind, Sort::Space) => self.leave_kind(),
            (State::Pair, Sort::Open) => {
                self.begin(State::From);
                true
            }
            (State::Size | State::Number | State::From | State::To, Sort::Digit) => {
                self.numeral.digit(sign)
            }
            (State::Size, Sort::Close) => {
                let Some(size) = self.numeral.value else {
                    return false;
                };
                self.finish(Line::Bay {
                    kind: self.kind,
                    size: size as usize,
                });
                true
            }
            (State::Number, Sort::Space) => {
                let Some(number) = self.numeral.value else {
                    return false;
                };
                self.first = number;
                self.at = 0;
                self.state = State::InCode;
                true
            }
            (State::From, Sort::Space) => {
                let Some(from) = self.numeral.value else {
                    return false;
                };
                self.first = from;
                self.begin(State::To);
                true
            }
            (State::To, Sort::Close) => {
                let Some(to) = self.numeral.value else {
                    return false;
                };
                self.second = to;
                self.state = State::PairEnd;
                true
            }
            (State::PairEnd, Sort::Space | Sort::Close) => self.leave_pair(sign),
            (State::Parts, Sort::Open) => {
                self.begin(State::Lines);
                true
            }
            (State::Lines | State::Bits, Sort::Minus)
                if self.numeral.value.is_none() && !self.numeral.minus => {
                self.numeral.minus = true;
                true
            }
            (State::Lines, Sort::Digit) => self.numeral.digit(sign),
            (State::Lines, Sort::Point) => {
                let Some(lines) = self.numeral.value else {
                    return false;
                };
                self.half_lines = self.numeral.signed(2 * lines + 1);
                self.state = State::Point;
                true
            }
            (State::Point, Sort::Digit) if sign == b'5' => {
                self.state = State::Half;
                true
            }
            (State::Half, Sort::Space | Sort::Close) => self.leave_lines(sign),
            (State::Lines, Sort::Space) => self.whole_lines(b' '),
            (State::Lines, Sort::Close) => self.whole_lines(b')'),
            (State::Bits, Sort::Digit)
                if self.numeral.value.is_some() || !self.numeral.minus || sign != b'0' => {
                self.numeral.digit(sign)
            }
            (State::Bits, Sort::Close) => {
                let Some(bits) = self.numeral.value else {
                    return false;
                };
                let bits = self.numeral.signed(bits);
                self.leave_bits(bits);
                true
            }
            (State::Closing, Sort::Close) => {
                self.state = State::Ending;
                true
            }
            (State::InCode, Sort::Letter | Sort::Digit) => self.code_sign(sign),
            (State::InCode, Sort::Close) if self.at >= 4 => {
                self.finish(Line::Format {
                    number: self.first as usize,
                    code: self.code,
                });
                true
            }
            (State::Ending, Sort::LineEnd) => {
                self.state = State::Over;
                true
            }
            _ => false,
        }
    }
}

// The line that was read, with its places.
fn placed(line: Line, from: usize, end: usize) -> Read
    requires coded { FourSigns line }
    requires whole { end ≡ from + length (line_text line) }
    ensures line { result.line ≡ line }
    ensures end { result.end ≡ end }
    ensures number { result.number_place ≡ number_begins from line }
    ensures code { result.code_place ≡ code_begins from line }
{
    let (number_place, code_place) = match line {
        Line::Bay { kind, .. } => (from + size_begins(kind), end),
        Line::Format { .. } => (from + 8, end - 6),
        Line::Card { .. } => (from + 7, end),
        Line::Leg { .. } => (from + 6, end),
        Line::End => (end, end),
    };
    Read {
        line,
        end,
        number_place,
        code_place,
    }
}

// Reads one line of the text, from a place on. The text comes whole with the place beside it, since a refusal tells a place of
// it.
pub fn read_line(text: &[u8], from: usize, stage: Stage) -> Result<Read, Unfit>
    ensures line { ReadLine stage text.now from result }
    ensures alone { Alone stage text.now from result }
{
    let mut reader = Reader::new(stage);
    // By index: reading takes a quarter longer over `text.iter().enumerate().skip(from)`.
    for place in from..text.len() {
        if !reader.take(text[place]) {
            return Err(Unfit { byte: place });
        }
        if let State::Over = reader.state {
            return Ok(placed(reader.line, from, place + 1));
        }
    }
    Err(Unfit { byte: text.len() })
}
