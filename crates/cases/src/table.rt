// The table of cases, as `tools/cases.py` writes it: a record a line, with the bytes of a text in lines of their own.

// A record.
#[derive(Clone, Copy)]
pub enum Record<'a> {
    // The ticket that the next records speak of.
    Base(&'a [u8]),
    // The base as it is.
    Whole,
    // So many bytes of the base.
    Cut(usize),
    // The base with another byte at a place: a case for each value from the low one to the high one.
    Set { place: usize, low: u8, high: u8 },
    // A right answer to the cases of the record before.
    Answer(&'a [u8]),
    // There are no more.
    End,
}

// What is still to be read.
#[derive(Drop)]
pub struct Table<'a> {
    rest: &'a [u8],
}

// A number by its digits.
fn number(digits: &[u8]) -> Option<usize> {
    let mut n = 0_usize;
    for digit in digits {
        let more = digit.checked_sub(b'0').filter(|d| *d < 10)?;
        n = n.checked_mul(10)?.checked_add(usize::from(more))?;
    }
    Some(n)
}

// The first word of a line, and the words after it.
fn split_word(line: &[u8]) -> (&[u8], &[u8]) {
    match line.iter().position(|b| *b == b' ') {
        Some(space) => (&line[..space], &line[space + 1..]),
        None => (line, &[]),
    }
}

// The case of a place and two values.
fn set_case(words: &[u8]) -> Option<Record<'static>> {
    let (place, words) = split_word(words);
    let (low, high) = split_word(words);
    Some(Record::Set {
        place: number(place)?,
        low: u8::try_from(number(low)?).ok()?,
        high: u8::try_from(number(high)?).ok()?,
    })
}

// A record that is a line alone.
fn line_record(word: &[u8], words: &[u8]) -> Option<Record<'static>> {
    match word {
        b"whole" => Some(Record::Whole),
        b"cut" => Some(Record::Cut(number(words)?)),
        b"set" => set_case(words),
        b"end" => Some(Record::End),
        _ => None,
    }
}

impl<'a> Table<'a> {
    pub fn new(text: &'a [u8]) -> Table<'a> {
        Table { rest: text }
    }

    // The next line, without its end.
    fn line(&mut self) -> Option<&'a [u8]> {
        let end = self.rest.iter().position(|b| *b == b'\n')?;
        let (line, rest) = self.rest.split_at(end);
        self.rest = &rest[1..];
        Some(line)
    }

    // So many bytes, and a line end after them.
    fn text(&mut self, length: &[u8]) -> Option<&'a [u8]> {
        let (text, rest) = self.rest.split_at_checked(number(length)?)?;
        let (end, rest) = rest.split_first()?;
        if *end != b'\n' {
            return None;
        }
        self.rest = rest;
        Some(text)
    }

    // The next record, if it is one.
    pub fn record(&mut self) -> Option<Record<'a>> {
        let line = self.line()?;
        let (word, words) = split_word(line);
        if word == b"base".as_slice() {
            Some(Record::Base(self.text(words)?))
        } else if word == b"answer".as_slice() {
            Some(Record::Answer(self.text(words)?))
        } else {
            line_record(word, words)
        }
    }
}
