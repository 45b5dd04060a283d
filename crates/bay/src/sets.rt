// Sets of formats.
ghost use Rattle.std.specs.Prelude.{◌≡◌, ℕ, ◌+◌, ◌*◌, ◌<◌, ◌≤◌, ◌==◌, ◌≢◌, ◌&&◌, ◌||◌, not, true, false, IfSome, None, nat_lt, slice_index_or};
ghost use Rattle.std.specs.Int.{bit_at};
ghost use Rattle.registers.specs.Meaning.{most_formats};
ghost use Rattle.bay.specs.FormatSets.{holds, no_formats};

use registers::MOST_FORMATS;

// Whether a bit of a byte is set.
fn has_bit(byte: u8, bit: usize) -> bool
    requires { bit < 8 }
    ensures { result ≡ (bit_at byte bit == 1) }
{
    byte & (1 << bit) != 0
}

// A set of formats, a bit each.
#[derive(Clone, Copy, Debug, PartialEq, Eq)]
pub(crate) struct FormatSet {
    bits: u64,
}

impl FormatSet {
    pub(crate) fn none() -> FormatSet
        ensures { result ≡ no_formats }
    {
        FormatSet { bits: 0 }
    }

    // The formats below `count`.
    pub(crate) fn below(count: usize) -> FormatSet
        requires { count ≤ most_formats }
        ensures { (f : ℕ) → holds result f ≡ nat_lt f count }
    {
        if count < 64 {
            FormatSet {
                bits: (1 << count) - 1,
            }
        } else {
            FormatSet { bits: u64::MAX }
        }
    }

    pub(crate) fn holds(self, format: usize) -> bool
        requires { format < most_formats }
        ensures { result ≡ holds self format }
    {
        (self.bits >> format) & 1 == 1
    }

    // A mark for each format, whether the set holds it. A byte of the set goes after the other, so that this becomes vector code.
    pub(crate) fn marks(self) -> [bool; MOST_FORMATS]
        ensures { (f : ℕ) → f < most_formats → slice_index_or result f false ≡ holds self f }
    {
        let mut marks = [false; MOST_FORMATS];
        for place in 0..8 {
            let byte = self.byte(place);
            for bit in 0..8 {
                marks[8 * place + bit] = has_bit(byte, bit);
            }
        }
        marks
    }

    // Eight of the bits.
    fn byte(self, place: usize) -> u8
        requires { place < 8 }
        ensures { (k : ℕ) → k < 8 → bit_at result k ≡ bit_at self.bits (8 * place + k) }
    {
        ((self.bits >> (8 * place)) & 0xff) as u8
    }

    // With the format.
    pub(crate) fn with(self, format: usize) -> FormatSet
        requires { format < most_formats }
        ensures there { holds result format ≡ true }
        ensures others { (f : ℕ) → f ≢ format → holds result f ≡ holds self f }
    {
        FormatSet {
            bits: self.bits | (1 << format),
        }
    }

    // Without the format.
    pub(crate) fn without(self, format: usize) -> FormatSet
        requires { format < most_formats }
        ensures gone { holds result format ≡ false }
        ensures others { (f : ℕ) → f < most_formats → f ≢ format → holds result f ≡ holds self f }
        ensures fewer { holds self format ≡ true → result.bits < self.bits }
    {
        FormatSet {
            bits: self.bits & !(1 << format),
        }
    }

    // The formats that are in both.
    pub(crate) fn and(self, other: FormatSet) -> FormatSet
        ensures { (f : ℕ) → holds result f ≡ (holds self f && holds other f) }
    {
        FormatSet {
            bits: self.bits & other.bits,
        }
    }

    // The formats that are in one of the two.
    pub(crate) fn or(self, other: FormatSet) -> FormatSet
        ensures { (f : ℕ) → holds result f ≡ (holds self f || holds other f) }
    {
        FormatSet {
            bits: self.bits | other.bits,
        }
    }

    // The formats that are not in the other.
    pub(crate) fn except(self, other: FormatSet) -> FormatSet
        ensures less { (f : ℕ) → f < most_formats →
            holds result f ≡ (holds self f && not (holds other f)) }
        ensures inside { (f : ℕ) → most_formats ≤ f → holds result f ≡ false }
    {
        FormatSet {
            bits: self.bits & !other.bits,
        }
    }

    // The lowest format.
    pub(crate) fn first(self) -> Option<usize>
        ensures some { IfSome result (λ f. (f < most_formats) × (holds self f ≡ true)) }
        ensures none { result ≡ None → (f : ℕ) → f < most_formats → holds self f ≡ false }
    {
        if self.bits == 0 {
            None
        } else {
            Some(self.bits.trailing_zeros() as usize)
        }
    }
}
