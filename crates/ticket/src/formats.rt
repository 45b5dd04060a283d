// The format lines of a ticket: each format has its number and its code.
ghost use Rattle.std.specs.Prelude.{◌≡◌, ◌<◌, ◌≤◌, length};
ghost use Rattle.registers.specs.Meaning.{most_formats};
ghost use Rattle.ticket.specs.Said.{used};
ghost use Rattle.ticket.specs.Steps.{FormatAnswer, FormatsAnswer};

use crate::fault::{Refusal, TicketFault};
use costs::Cost;
use lines::{Line, Stage, read_line, same_bytes};
use registers::MOST_FORMATS;

// A ticket has at most so many codes, one for each format.
pub const MOST_CODES: usize = MOST_FORMATS;

// The four letters or digits by which a format is known.
pub type FourCc = [u8; 4];

// Whether one of the codes is equal to this one.
fn is_used(codes: &[FourCc], code: FourCc) -> bool
    ensures { result ≡ used codes.now code }
{
    codes.iter().any(|held| same_bytes(held, &code))
}

// The line of format `k`, whose code is none of those before it: where it ends.
fn read_format(
    text: &[u8],
    from: usize,
    k: usize,
    codes: &mut [FourCc; MOST_CODES],
) -> Result<usize, Refusal>
    requires { k < most_formats }
    ensures { FormatAnswer text.now from k codes.old codes.new result }
{
    let read = read_line(text, from, Stage::Formats)?;
    let Line::Format { number, code } = read.line else {
        return Err(TicketFault::Unfit.at(from));
    };
    if number != k {
        return Err(TicketFault::OutOfField.at(read.number_place));
    }
    if is_used(&codes[0..k], code) {
        return Err(TicketFault::CodeUsed.at(read.code_place));
    }
    codes[k] = code;
    Ok(read.end)
}

// The lines of `n` formats: where they end.
pub(crate) fn read_formats<C: Cost>(
    text: &[u8],
    from: usize,
    n: usize,
    codes: &mut [FourCc; MOST_CODES],
) -> Result<usize, Refusal>
    requires { n ≤ most_formats }
    ensures long { length codes.new ≡ most_formats }
    ensures as_long { length codes.new ≡ length codes.old }
    ensures answer { FormatsAnswer C.Cost text.now from n codes.old codes.new result }
{
    let mut place = from;
    for k in 0..n {
        place = read_format(text, place, k, codes)?;
    }
    Ok(place)
}
