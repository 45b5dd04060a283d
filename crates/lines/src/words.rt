// The words of a ticket, letter by letter, and texts compared byte by byte.
ghost use Rattle.std.specs.Prelude.{◌≡◌, ◌||◌, Decides, MatchOption};
ghost use Rattle.lines.specs.declared.line.Kind.{Kind};
ghost use Rattle.lines.specs.Grammar.{kind_text, size_begins};
ghost use Rattle.lines.specs.Rests.{is_front, letters_of, word_by};

use crate::line::{Kind, Stage};

#[derive(Clone, Copy, Debug, PartialEq, Eq)]
pub enum Word {
    Bay,
    Format,
    Card,
    Leg,
    End,
}

impl Word {
    pub fn letters(self) -> &'static [u8]
        ensures { result.now ≡ letters_of self }
    {
        match self {
            Word::Bay => b"bay",
            Word::Format => b"format",
            Word::Card => b"card",
            Word::Leg => b"leg",
            Word::End => b"end",
        }
    }
}

// The word of an allowed line that begins with this letter. No two begin alike.
pub fn word_by(stage: Stage, letter: u8) -> Option<Word>
    ensures { result ≡ word_by stage letter }
{
    match (stage, letter) {
        (Stage::Start, b'b') => Some(Word::Bay),
        (Stage::Formats, b'f') => Some(Word::Format),
        (Stage::Cards(_), b'c') => Some(Word::Card),
        (Stage::Cards(_) | Stage::Legs, b'l') => Some(Word::Leg),
        (Stage::Cards(_) | Stage::Legs, b'e') => Some(Word::End),
        _ => None,
    }
}

// Whether two texts are the same. Codes and the words of kinds are compared by this alone.
pub fn same_bytes(a: &[u8], b: &[u8]) -> bool
    ensures { Decides result (a.now ≡ b.now) }
{
    a == b
}

// Whether a word begins with these letters.
fn is_front(letters: &[u8], word: &[u8]) -> bool
    ensures { result ≡ is_front letters.now word.now }
{
    letters.len() <= word.len() && same_bytes(letters, &word[..letters.len()])
}

fn kind_letters(kind: Kind) -> &'static [u8]
    ensures { result.now ≡ kind_text kind }
{
    match kind {
        Kind::Delay => b"delay",
        Kind::Depth => b"depth",
        Kind::Both => b"both",
    }
}

// How far into a bay line of the kind its number of formats stands: after an opening sign, a word and two spaces.
pub fn size_begins(kind: Kind) -> usize
    ensures { result ≡ size_begins kind }
{
    6 + kind_letters(kind).len()
}

// Whether the word of some kind begins with these letters.
pub fn begins_kind(letters: &[u8]) -> bool
    ensures { let delay = kind_text Kind.Delay in
        let depth = kind_text Kind.Depth in
        let both = kind_text Kind.Both in
        result ≡ (is_front letters.now delay || is_front letters.now depth
        || is_front letters.now both) }
{
    is_front(letters, kind_letters(Kind::Delay))
        || is_front(letters, kind_letters(Kind::Depth))
        || is_front(letters, kind_letters(Kind::Both))
}

// The kind whose word this is.
pub fn kind_by(word: &[u8]) -> Option<Kind>
    ensures { MatchOption result ((kind : Kind) → word.now ≡ kind_text kind → ⊥)
        (λ kind. word.now ≡ kind_text kind) }
{
    if same_bytes(word, kind_letters(Kind::Delay)) {
        Some(Kind::Delay)
    } else if same_bytes(word, kind_letters(Kind::Depth)) {
        Some(Kind::Depth)
    } else if same_bytes(word, kind_letters(Kind::Both)) {
        Some(Kind::Both)
    } else {
        None
    }
}
