// A number of a line, digit by digit.
ghost use Rattle.std.specs.Option.{ForSome};
ghost use Rattle.std.specs.Prelude.{◌*◌, ◌<◌};
ghost use Rattle.lines.specs.Grammar.{too_large};

// What was read of a number: whether a minus stands in front, and the value of its digits so far, if any.
#[derive(Clone, Copy, Debug, PartialEq, Eq)]
pub struct Numeral {
    pub minus: bool,
    pub value: Option<u32>,
    // it has at most seven digits
    ghost small: { ForSome value (λ n. n < too_large) },
}

impl Numeral {
    ghost use Rattle.std.specs.Prelude.{◌≡◌, false, true, None, if◌then◌else◌};
    ghost use Rattle.lines.specs.Signs.{digit};
    ghost use Rattle.lines.specs.Rests.{signed, takes_digit, with_digit};

    // Before its first sign.
    pub fn new() -> Numeral
        ensures minus { result.minus ≡ false }
        ensures value { result.value ≡ None }
    {
        Numeral {
            minus: false,
            value: None,
        }
    }

    // One more digit, if it can have one: 0 stands alone, and seven digits are the most.
    pub fn digit(&mut self, sign: u8) -> bool
        requires { digit sign ≡ true }
        ensures fits { result ≡ takes_digit self.old.value }
        ensures minus { self.new.minus ≡ self.old.minus }
        ensures value { self.new.value
            ≡ (if result then with_digit self.old.value sign else self.old.value) }
    {
        let digit = u32::from(sign - b'0');
        self.value = match self.value {
            None => Some(digit),
            Some(value) if value == 0 || value >= 1_000_000 => return false,
            Some(value) => Some(value * 10 + digit),
        };
        true
    }

    // So many, below 0 where a minus stands in front.
    pub fn signed(&self, count: u32) -> i32
        requires { count < 2 * too_large }
        ensures { result ≡ signed self.now.minus count }
    {
        let count = count as i32;
        if self.minus { -count } else { count }
    }
}
