// The lines of an answer.
ghost use Rattle.std.specs.Prelude.{◌≡◌, ◌+◌, ◌*◌, ◌≤◌, length};
ghost use Rattle.registers.specs.Meaning.{most_formats};
ghost use Rattle.bay.specs.Sheet.{most_in_row};
ghost use Rattle.registers.specs.Text.{layer_text};
ghost use Rattle.listing.specs.Lengths.{most_found, most_line, most_refusal};
ghost use Rattle.listing.specs.Output.{Writes};
ghost use Rattle.listing.specs.Text.{formats_of, fourcc_text, fourccs_text, found_text, leg_text, code_line};

use crate::output::Output;
use bay::ROW;
use lines::Amount;
use registers::{Code, Layer};
use ticket::{Ends, FourCc, MOST_CODES};

// The formats of row `k`, as many as its number says.
pub(crate) fn row_formats(chains: &[u8], k: usize) -> &[u8]
    requires { k ≤ most_formats }
    ensures formats { result.now ≡ formats_of chains.now k }
    ensures few { length result.now ≤ most_in_row }
{
    let start = chains.len().min(ROW * k);
    let end = chains.len().min(ROW * k + ROW);
    match chains[start..end].split_first() {
        Some((count, formats)) => &formats[..formats.len().min(*count as usize)],
        None => &[],
    }
}

// The code of a format. Output and codes are two arguments: a place of bytes knows no codes, and counting a text writes it too.
fn put_code(out: &mut Output, codes: &[FourCc; MOST_CODES], format: u8)
    ensures written { Writes out.old out.new (fourcc_text codes.now format) }
    ensures short { length (fourcc_text codes.now format) ≤ 4 }
{
    if let Some(code) = codes.get(format as usize) {
        out.put(code);
    }
}

// The codes of some formats, with a space between them.
pub(crate) fn put_codes(out: &mut Output, codes: &[FourCc; MOST_CODES], formats: &[u8])
    ensures written { Writes out.old out.new (fourccs_text codes.now formats.now) }
    ensures short { length (fourccs_text codes.now formats.now)
        ≤ 5 * length formats.now }
{
    let Some((first, others)) = formats.split_first() else {
        return;
    };
    put_code(out, codes, *first);
    for format in others {
        out.put(b" ");
        put_code(out, codes, *format);
    }
}

// What was found for a leg.
fn put_found(out: &mut Output, codes: &[FourCc; MOST_CODES], cost: Amount, formats: &[u8])
    requires { length formats.now ≤ most_in_row }
    ensures written { Writes out.old out.new (found_text codes.now cost formats.now) }
    ensures short { length (found_text codes.now cost formats.now) ≤ most_found }
{
    if formats.is_empty() {
        out.put(b"none");
        return;
    }
    out.put_amount(cost);
    out.put(b" (");
    put_codes(out, codes, formats);
    out.put(b")");
}

// The line of leg `k`.
pub(crate) fn put_leg(
    out: &mut Output,
    codes: &[FourCc; MOST_CODES],
    k: usize,
    ends: Ends,
    cost: Amount,
    formats: &[u8],
)
    requires { length formats.now ≤ most_in_row }
    ensures written { Writes out.old out.new (leg_text codes.now k ends cost formats.now) }
    ensures short { length (leg_text codes.now k ends cost formats.now) ≤ most_line }
{
    out.put(b"(leg ");
    out.put_number(k);
    out.put(b" (");
    out.put_number(ends.from);
    out.put(b" ");
    out.put_number(ends.to);
    out.put(b") ");
    put_found(out, codes, cost, formats);
    out.put(b")");
    out.put(b"\n");
}

// The word for a layer, as bytes: its `Display` has the same word, but a listing is no `fmt::Write`.
fn layer_word(layer: Layer) -> &'static [u8]
    ensures word { result.now ≡ layer_text layer }
    ensures short { length result.now ≤ 8 }
{
    match layer {
        Layer::Ticket => b"ticket",
        Layer::Bay => b"bay",
        Layer::Register => b"register",
    }
}

// The line of a refusal.
pub(crate) fn put_code_line(out: &mut Output, code: Code, byte: usize)
    ensures written { Writes out.old out.new (code_line code byte) }
    ensures short { length (code_line code byte) ≤ most_refusal }
{
    out.put(b"(refused ");
    out.put(layer_word(code.layer));
    out.put(b" ");
    out.put_number(code.number as usize);
    out.put(b" ");
    out.put_number(code.part as usize);
    out.put(b" ");
    out.put_number(byte);
    out.put(b")");
    out.put(b"\n");
}
