// The sort of a sign.
ghost use Rattle.std.specs.Prelude.{◌≡◌};
ghost use Rattle.lines.specs.Signs.{sort_of};

#[derive(Clone, Copy, Debug, PartialEq, Eq)]
pub enum Sort {
    Open,
    Close,
    Space,
    Minus,
    Point,
    Digit,
    Letter,
    LineEnd,
    Strange,
}

pub fn sort_of(sign: char) -> Sort
    ensures { result ≡ sort_of sign }
{
    match sign {
        '(' => Sort::Open,
        ')' => Sort::Close,
        ' ' => Sort::Space,
        '-' => Sort::Minus,
        '.' => Sort::Point,
        '0'..='9' => Sort::Digit,
        'a'..='z' | 'A'..='Z' => Sort::Letter,
        '\n' => Sort::LineEnd,
        _ => Sort::Strange,
    }
}
