// Text written into a place of bytes, from its start. What does not fit is only counted. A place and a count, and no
// `fmt::Write`: a code is four bytes that need not be text, and each write would have an error that cannot come.
ghost use Rattle.std.specs.Prelude.{◌≡◌, ◌+◌, ◌*◌, ◌≤◌, [], decimal, length};
ghost use Rattle.std.specs.Fmt.{signed_decimal};
ghost use Rattle.lines.specs.Grammar.{amount_text, both_text, delay_text, lines_text};
ghost use Rattle.listing.specs.Lengths.{most_amount, most_digits};
ghost use Rattle.listing.specs.Output.{Holds, Writes};

use itoa::Buffer;
use lines::Amount;

// A place of bytes, and how many bytes the text has that was written so far.
pub struct Output<'a> {
    bytes: &'a mut [u8],
    count: usize,
}

impl<'a> Output<'a> {
    // Nothing is written yet.
    pub fn new(bytes: &'a mut [u8]) -> Output<'a>
        ensures holds { Holds bytes.old [] result }
        ensures lent { result.bytes.ghost_name ≡ bytes.entry.ghost_name }
    {
        Output { bytes, count: 0 }
    }

    // The length of the text; the place is given back.
    pub fn finish(self) -> usize
        ensures count { result ≡ self.entry.count }
        ensures left { self.exit.0.now ≡ self.entry.bytes.now }
    {
        let Output { bytes: _, count } = self;
        count
    }

    // More text.
    pub fn put(&mut self, more: &[u8])
        ensures { Writes self.old self.new more.now }
    {
        let start = self.count;
        let end = start.saturating_add(more.len());
        if end <= self.bytes.len() {
            self.bytes[start..end].copy_from_slice(more);
        }
        self.count = end;
    }

    // A number, by its digits.
    pub fn put_number(&mut self, n: usize)
        ensures written { Writes self.old self.new (decimal n) }
        ensures short { length (decimal n) ≤ most_digits }
    {
        let mut digits = Buffer::new();
        self.put(digits.format(n).as_bytes());
    }

    // A number with its sign, if it is below 0.
    fn put_signed(&mut self, z: i32)
        ensures written { Writes self.old self.new (signed_decimal z) }
        ensures short { length (signed_decimal z) ≤ most_digits }
    {
        let mut digits = Buffer::new();
        self.put(digits.format(z).as_bytes());
    }

    // So many half lines: the whole lines, and half a line where one is left.
    fn put_lines(&mut self, half_lines: usize)
        ensures written { Writes self.old self.new (lines_text half_lines) }
        ensures short { length (lines_text half_lines) ≤ most_digits + 2 }
    {
        self.put_number(half_lines / 2);
        if half_lines % 2 == 1 {
            self.put(b".5");
        }
    }

    // A delay: its sign, if it is below 0, and its lines.
    fn put_delay(&mut self, half_lines: i32)
        ensures written { Writes self.old self.new (delay_text half_lines) }
        ensures short { length (delay_text half_lines) ≤ most_digits + 3 }
    {
        if half_lines.is_negative() {
            self.put(b"-");
        }
        self.put_lines(half_lines.unsigned_abs() as usize);
    }

    // A delay and a depth, in brackets of their own.
    fn put_both(&mut self, half_lines: i32, bits: i32)
        ensures written { Writes self.old self.new (both_text half_lines bits) }
        ensures short { length (both_text half_lines bits) ≤ most_amount }
    {
        self.put(b"(");
        self.put_delay(half_lines);
        self.put(b" ");
        self.put_signed(bits);
        self.put(b")");
    }

    // A cost, as its kind is written.
    pub fn put_amount(&mut self, amount: Amount)
        ensures written { Writes self.old self.new (amount_text amount) }
        ensures short { length (amount_text amount) ≤ most_amount }
    {
        match amount {
            Amount::HalfLines(half_lines) => self.put_delay(half_lines),
            Amount::Bits(bits) => self.put_signed(bits),
            Amount::Both { half_lines, bits } => self.put_both(half_lines, bits),
        }
    }
}
