// The cost kinds as plain numbers, half lines or bits, so that one text serves for both.
use crate::dice::Dice;
use costs::{Cost, Delay, Depth};

pub trait Kind: Cost {
    // The cost that a number stands for, and the number of a cost.
    fn of_number(number: i32) -> Self;

    fn number(self) -> i32;

    // What two numbers along a walk come to.
    fn combined(a: i32, b: i32) -> i32;

    // The number that changes nothing.
    fn neutral() -> i32;

    // The number of a card; a spread of 0 to 3 says how much they vary.
    fn draw(dice: &mut Dice, spread: usize) -> i32;
}

impl Kind for Delay {
    fn of_number(number: i32) -> Delay {
        Delay { half_lines: number }
    }

    fn number(self) -> i32 {
        self.half_lines
    }

    fn combined(a: i32, b: i32) -> i32 {
        a.saturating_add(b)
    }

    fn neutral() -> i32 {
        0
    }

    // From -spread to 9.
    fn draw(dice: &mut Dice, spread: usize) -> i32 {
        dice.number(0, spread.saturating_add(10))
            .saturating_sub(i32::try_from(spread).unwrap_or(0))
    }
}

impl Kind for Depth {
    fn of_number(number: i32) -> Depth {
        Depth {
            bits: u8::try_from(number).unwrap_or(0),
        }
    }

    fn number(self) -> i32 {
        i32::from(self.bits)
    }

    fn combined(a: i32, b: i32) -> i32 {
        a.min(b)
    }

    fn neutral() -> i32 {
        255
    }

    // From 1 to 4, 8, 12 or 16.
    fn draw(dice: &mut Dice, spread: usize) -> i32 {
        dice.number(1, spread.saturating_mul(4).saturating_add(4))
    }
}
