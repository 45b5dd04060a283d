// The costs of each kind as the amounts that a ticket has for them.
ghost use Rattle.std.specs.Prelude.{◌≡◌};
ghost use Rattle.lines.specs.declared.line.Amount.{Amount};
ghost use Rattle.ticket.specs.Kinds.{delay_of, depth_of, both_of, depth_from};
ghost use Rattle.ticket.specs.Kinds.{delay_amount, depth_amount, both_amount};

use costs::{Cost, Delay, Depth, Pair};
use lines::Amount;

// A kind that a ticket can have.
pub trait TicketCost: Cost {
    // the cost that the amount of a card line stands for
    ghost reads: { Amount → Self };

    // the amount that stands for a cost
    ghost writes: { Self → Amount };

    // The cost that a card line's amount stands for; an amount that no cost has is taken for one that no card may have.
    fn of_amount(amount: Amount) -> Self
        ensures { result ≡ reads amount };

    // The amount that stands for a cost.
    fn amount(self) -> Amount
        ensures { result ≡ writes self };
}

// Costs that no card may have.
const NO_DELAY: Delay = Delay {
    half_lines: i32::MIN,
};

const NO_DEPTH: Depth = Depth { bits: 0 };

// A depth of so many bits; where no depth has so many, one that no card may have.
fn depth_from(bits: i32) -> Depth
    ensures { result ≡ depth_from bits }
{
    Depth {
        bits: u8::try_from(bits).unwrap_or(0),
    }
}

impl TicketCost for Delay {
    ghost reads = { delay_of };

    ghost writes = { delay_amount };

    fn of_amount(amount: Amount) -> Delay {
        match amount {
            Amount::HalfLines(half_lines) => Delay { half_lines },
            Amount::Bits(_) | Amount::Both { .. } => NO_DELAY,
        }
    }

    fn amount(self) -> Amount {
        Amount::HalfLines(self.half_lines)
    }
}

impl TicketCost for Depth {
    ghost reads = { depth_of };

    ghost writes = { depth_amount };

    fn of_amount(amount: Amount) -> Depth {
        match amount {
            Amount::Bits(bits) => depth_from(bits),
            Amount::HalfLines(_) | Amount::Both { .. } => NO_DEPTH,
        }
    }

    fn amount(self) -> Amount {
        Amount::Bits(i32::from(self.bits))
    }
}

// Each part is read and written as in a ticket of its own kind.
impl TicketCost for Pair<Delay, Depth> {
    ghost reads = { both_of };

    ghost writes = { both_amount };

    fn of_amount(amount: Amount) -> Pair<Delay, Depth> {
        match amount {
            Amount::Both { half_lines, bits } => Pair {
                first: Delay { half_lines },
                second: depth_from(bits),
            },
            Amount::HalfLines(_) | Amount::Bits(_) => Pair {
                first: NO_DELAY,
                second: NO_DEPTH,
            },
        }
    }

    fn amount(self) -> Amount {
        Amount::Both {
            half_lines: self.first.half_lines,
            bits: i32::from(self.second.bits),
        }
    }
}
